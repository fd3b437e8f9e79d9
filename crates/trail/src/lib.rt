// The assignment: by variable its value, level, reason and phase, and the trail with where each level starts on it.
// Each has a slice of its own, and not one of structs: C lends numbers, and propagation reads values alone.
// That a variable or a literal is one of the trail's is asked where it is used: it depends on the trail, so no type of variables has it as an invariant.
#![tactic(auto)]

ghost use Rattle.std.specs.Prelude.{◌≡◌, ◌+◌, ◌*◌, ◌<◌, ◌≤◌, length, get_or, Some, None};
ghost use Rattle.model.specs.Limits.{max_variables};
ghost use Rattle.model.specs.Lit.{var, value_lit, is_true, is_false};
ghost use Rattle.model.specs.State.{decision_level};
ghost use Rattle.options.specs.Numbers.{phase_number};
ghost use Rattle.clause.specs.Cells.{cell_of, reason_at, reason_cell};
ghost use Rattle.trail.specs.View.{found, initial_assignment, enqueued, next_level, until, Undoable, LitsOf, Sound, Counted, Rep, assignment_of, saves, undone};

use clause::{Lit, NO_REASON, UNDEF, Value, Var, reason_at, reason_cell};
use options::Phase;
use std::marker::Model;

// The first `assigned` of `literals` are the trail; the first `depth` of `limits` have where on it each level starts.
// Lent slices with lengths, since there is no heap for a Vec.
#[derive(Drop)]
pub struct Trail<'a> {
    values: &'a mut [u32],
    levels: &'a mut [u32],
    reasons: &'a mut [u32],
    phases: &'a mut [u32],
    literals: &'a mut [u32],
    limits: &'a mut [u32],
    assigned: usize,
    depth: usize,
}

impl<'a> Model for Trail<'a> {
    ghost use Rattle.trail.specs.View.{Assignment};

    ghost Value = { Assignment };

    ghost use Rattle.trail.specs.Inside.{shown, Kept};

    ghost view = { shown };

    ghost invariant = { Kept };
}

// The slices of a trail and how far two of them are used, for a caller that lays out the cells or reads them.
#[derive(Drop)]
pub struct Parts<'a> {
    pub values: &'a mut [u32],
    pub levels: &'a mut [u32],
    pub reasons: &'a mut [u32],
    pub phases: &'a mut [u32],
    pub literals: &'a mut [u32],
    pub limits: &'a mut [u32],
    pub assigned: usize,
    pub depth: usize,
}

impl<'a> Trail<'a> {
    // The start: nothing is assigned, whatever stood in the cells.
    #[tactic(auto, unfolding(model::specs::State::initial_state))]
    pub fn new(cells: &'a mut [u32], vars: usize) -> Trail<'a>
        requires room { 8 * vars ≤ length cells.old }
        requires vars { vars ≤ max_variables }
        ensures { result ≡ initial_assignment vars (found vars cells.old) }
    {
        let (values, rest) = cells.split_at_mut(vars);
        let (levels, rest) = rest.split_at_mut(vars);
        let (reasons, rest) = rest.split_at_mut(vars);
        let (phases, rest) = rest.split_at_mut(vars);
        let (literals, rest) = rest.split_at_mut(vars);
        let (limits, _) = rest.split_at_mut(3 * vars);
        values.fill(UNDEF);
        levels.fill(0);
        reasons.fill(NO_REASON);
        phases.fill(1);
        Trail {
            values,
            levels,
            reasons,
            phases,
            literals,
            limits,
            assigned: 0,
            depth: 0,
        }
    }

    // The trail that stands in the cells: for a caller that did not begin with `new`.
    pub fn from_parts(parts: Parts<'a>) -> Trail<'a>
        requires { Rep parts }
        ensures { result ≡ assignment_of parts.entry }
    {
        let Parts {
            values,
            levels,
            reasons,
            phases,
            literals,
            limits,
            assigned,
            depth,
        } = parts;
        Trail {
            values,
            levels,
            reasons,
            phases,
            literals,
            limits,
            assigned,
            depth,
        }
    }

    // The caller's slices again, with the assignment in them, and how far two of them are used.
    pub fn into_parts(self) -> Parts<'a>
        ensures rep { Rep result }
        ensures value { assignment_of result ≡ self.entry }
        ensures counts { Counted self.entry result.assigned result.depth }
    {
        let Trail {
            values,
            levels,
            reasons,
            phases,
            literals,
            limits,
            assigned,
            depth,
        } = self;
        Parts {
            values,
            levels,
            reasons,
            phases,
            literals,
            limits,
            assigned,
            depth,
        }
    }

    // What is true of every trail, for a caller's proof.
    pub fn sound(&self)
        ensures { Sound self.now }
    {
        let _ = &self.values;
    }

    // How many variables there are.
    pub fn vars(&self) -> usize
        ensures { result ≡ length self.now.vars.values }
    {
        self.values.len()
    }

    pub fn value(&self, v: Var) -> Value
        requires { v.0 < length self.now.vars.values }
        ensures { cell_of result ≡ get_or self.now.vars.values v.0 0 }
    {
        Value::from(self.values[v.0 as usize])
    }

    pub fn lit_value(&self, p: Lit) -> Value
        requires { var p.0 < length self.now.vars.values }
        ensures { cell_of result ≡ value_lit self.now.vars.values p.0 }
    {
        // By comparisons of cells: with a value made of the cell, and then compared, clauses of twenty literals took half as long again.
        if self.is_true(p) {
            return Value::True;
        }
        if self.is_false(p) {
            return Value::False;
        }
        Value::Undef
    }

    // One comparison on the cell: propagation asks this most, and comparing values took 3 % more instructions (docs/PERFORMANCE.md).
    pub fn is_true(&self, p: Lit) -> bool
        requires { var p.0 < length self.now.vars.values }
        ensures { result ≡ is_true self.now.vars.values p.0 }
    {
        self.values[p.var().0 as usize] == p.sign()
    }

    // Likewise: cell and sign are 0 and 1, or 1 and 0.
    pub fn is_false(&self, p: Lit) -> bool
        requires { var p.0 < length self.now.vars.values }
        ensures { result ≡ is_false self.now.vars.values p.0 }
    {
        self.values[p.var().0 as usize] + p.sign() == 1
    }

    // The level of a variable's last assignment.
    pub fn level(&self, v: Var) -> usize
        requires { v.0 < length self.now.vars.values }
        ensures { result ≡ get_or self.now.vars.levels v.0 0 }
    {
        self.levels[v.0 as usize] as usize
    }

    // The clause that forced a variable's last assignment.
    pub fn reason(&self, v: Var) -> Option<usize>
        requires { v.0 < length self.now.vars.values }
        ensures { result ≡ reason_at (get_or self.now.vars.reasons v.0 0) }
    {
        reason_at(self.reasons[v.0 as usize])
    }

    // The sign of a variable's next decision: a number, as `Lit::new` takes it.
    pub fn phase(&self, v: Var) -> u32
        requires { v.0 < length self.now.vars.values }
        ensures { result ≡ get_or self.now.phases v.0 0 }
    {
        self.phases[v.0 as usize]
    }

    // The literal at place i of the trail.
    pub fn at(&self, i: usize) -> Lit
        requires { i < length self.now.vars.trail }
        ensures { result.0 ≡ get_or self.now.vars.trail i 0 }
    {
        let literals = &self.literals;
        Lit(literals[i])
    }

    // Where on the trail level k + 1 starts.
    pub fn limit(&self, k: usize) -> usize
        requires { k < decision_level self.now.vars }
        ensures { result ≡ get_or self.now.vars.limits k 0 }
    {
        let limits = &self.limits;
        limits[k] as usize
    }

    // The cells of the values, by variable.
    pub fn values(&self) -> &[u32]
        ensures { result.now ≡ self.now.vars.values }
    {
        self.values
    }

    pub fn assigned(&self) -> usize
        ensures { result ≡ length self.now.vars.trail }
    {
        self.assigned
    }

    pub fn decision_level(&self) -> usize
        ensures { result ≡ decision_level self.now.vars }
    {
        self.depth
    }

    // The literal p becomes true on the present level, by the clause `from`.
    #[tactic(auto, unfolding(model::specs::Trail::unchecked_enqueue))]
    pub fn enqueue(&mut self, p: Lit, from: Option<usize>)
        requires var { var p.0 < length self.old.vars.values }
        requires room { length self.old.vars.trail < length self.old.vars.values }
        requires from { reason_cell from < 4294967296 }
        ensures { self.new ≡ enqueued self.old p.0 (reason_cell from) }
    {
        let v = p.var().0 as usize;
        self.values[v] = p.sign();
        self.levels[v] = self.depth as u32;
        self.reasons[v] = reason_cell(from);
        self.literals[self.assigned] = p.0;
        self.assigned += 1;
    }

    // Opens a decision level.
    #[tactic(auto, unfolding(model::specs::Trail::new_decision_level))]
    pub fn new_decision_level(&mut self)
        requires { length self.old.vars.limits < 3 * length self.old.vars.values }
        ensures { self.new ≡ next_level self.old }
    {
        self.limits[self.depth] = self.assigned as u32;
        self.depth += 1;
    }

    // Takes back the last literal of the trail.
    #[tactic(auto, unfolding(crate::specs::View::undone))]
    fn undo_last(&mut self, phase: Phase, last: usize)
        requires lits { LitsOf (length self.old.vars.values) self.old.vars.trail }
        requires assigned { 0 < length self.old.vars.trail }
        ensures { self.new ≡ undone (phase_number phase) last self.old }
    {
        self.assigned -= 1;
        let p = Lit(self.literals[self.assigned]);
        let v = p.var().0 as usize;
        self.values[v] = UNDEF;
        if saves_phase(phase, last, self.assigned) {
            self.phases[v] = p.sign();
        }
    }

    // Back to a level: what stands above it is unset, and the phases are saved as `phase` says.
    pub fn cancel_until(&mut self, level: usize, phase: Phase)
        requires level { level < decision_level self.old.vars }
        requires undoable { Undoable (length self.old.vars.values) self.old.vars level }
        ensures { self.new ≡ until (phase_number phase) self.old level }
    {
        let at = self.limit(level);
        let top = self.depth - 1;
        let last = self.limit(top);
        while at < self.assigned {
            self.undo_last(phase, last);
        }
        self.depth = level;
    }
}

// Whether the sign of the literal at place c of the trail is saved.
fn saves_phase(phase: Phase, last: usize, c: usize) -> bool
    ensures { result ≡ saves (phase_number phase) last c }
{
    match phase {
        Phase::Unsaved => false,
        Phase::Limited => last < c,
        Phase::Full => true,
    }
}

// Rule 6: the next decision, and the final clause when an assumption is false.
#![tactic(auto)]

ghost use Rattle.std.specs.Prelude.{◌≡◌, ◌≢◌, [], ◌+◌, ◌*◌, ◌≤◌, ◌<◌, length};
ghost use Rattle.model.specs.Lit.{value_lit};
ghost use Rattle.model.specs.Final.{mark};
ghost use Rattle.model.specs.State.{decision_level};
ghost use Rattle.model.specs.Decide.{pick_branch_lit, open_level, assume, decide};
ghost use Rattle.lawbase.specs.Basics.{◌∈◌, Every};
ghost use Rattle.assign.specs.Levels.{Levels};
ghost use Rattle.assign.specs.Pick.{Free};
ghost use Rattle.trail.specs.View.{LitsOf};
ghost use Rattle.state.specs.Still.{Still, Has, Beside, state_at};
ghost use Rattle.clause.specs.Cells.{cell_of};
ghost use Rattle.decide.specs.Blaming.{Passable, Passed, Blamable, Blamed};
ghost use Rattle.decide.specs.Final.{Explained};
ghost use Rattle.decide.specs.Deciding.{branch_of, taken_up, Decides};

use activity::Activities;
use clause::{Lit, Value};
use litset::LitSet;
use scratch::MarkCells;
use state::State;
use store::Store;
use trail::Trail;

// The literals of the part are marked, where they are above level 0.
fn mark_rest(trail: &Trail, marks: &mut MarkCells, part: &[u32])
    requires { LitsOf (length trail.now.vars.values) part.now × (length marks.old ≡ length trail.now.vars.values) }
    ensures { marks.new ≡ mark trail.now.vars part.now marks.old }
{
    for l in part {
        let v = Lit(*l).var();
        if 0 < trail.level(v) {
            marks.set(v);
        }
    }
}

// One literal of the trail on the way back: if it is marked, a decision goes to the final clause, and any other literal marks its reason.
fn pass_back(trail: &Trail, clauses: &Store, marks: &mut MarkCells, finals: &mut LitSet, l: Lit)
    requires { Passable trail.now clauses.now marks.old finals.old l.0 }
    ensures { Passed trail.now clauses.now marks.old marks.new finals.old finals.new l.0 }
{
    let v = l.var();
    if !marks.is_set(v) {
        return;
    }
    match trail.reason(v) {
        None => finals.insert(l.negate()),
        Some(c) => mark_rest(trail, marks, &clauses.clause(c)[1..]),
    }
    marks.unset(v);
}

// Back along the trail to the first limit.
fn blame(trail: &Trail, clauses: &Store, marks: &mut MarkCells, finals: &mut LitSet, start: usize)
    requires { Blamable trail.now clauses.now marks.old finals.old start }
    ensures { Blamed trail.now clauses.now marks.old marks.new finals.old finals.new start }
{
    // By place: where a level starts is a place of the trail, which hands out its literals one by one.
    for i in (start..trail.assigned()).rev() {
        pass_back(trail, clauses, marks, finals, trail.at(i));
    }
}

// The final clause of p, which is true: p and the negations of the decisions that make it true. No mark is left.
pub fn analyze_final(s: &mut State, p: Lit)
    requires still { Still s.old }
    requires set { p.0 ∈ s.old.trail.vars.trail }
    ensures { Explained s.old s.new p.0 }
{
    s.finals.insert(p);
    if s.trail.decision_level() == 0 {
        return;
    }
    s.scratch.marks.set(p.var());
    let start = s.trail.limit(0);
    blame(
        &s.trail,
        &s.clauses,
        &mut s.scratch.marks,
        &mut s.finals,
        start,
    );
    s.scratch.marks.unset(p.var());
}

// What a decision comes to: a level is opened for it; or every variable has a value; or an assumption is false, with the final clause.
#[derive(Clone, Copy, Debug, PartialEq, Eq)]
pub enum Decision {
    Decided,
    Complete,
    Failed,
}

// A level is opened for p.
fn open_level(s: &mut State, p: Lit)
    requires still { Still s.old }
    requires free { Free s.old.config.vars (state_at s.old) p.0 }
    requires level { decision_level s.old.trail.vars < 3 * s.old.config.vars }
    ensures has { Has s.new (open_level (state_at s.old) p.0) }
    ensures beside { Beside s.old s.new }
    ensures stored { (s.new.watches ≡ s.old.watches) × (s.new.clauses ≡ s.old.clauses) }
{
    s.trail.new_decision_level();
    s.trail.enqueue(p, None);
}

// The unset variable of greatest activity, in its saved sign; none where every variable has a value. The activities stand beside the state,
// and that each variable has one is asked: what reads no float takes none (`Solver` of crate search has both).
fn pick_branch_lit(s: &State, act: &Activities) -> Option<Lit>
    requires still { Still s.now }
    requires sized { s.now.config.vars ≤ length act.now.activities }
    ensures { branch_of result ≡ pick_branch_lit act.now.activities (state_at s.now) }
{
    let v = act.pick(s.trail.values())?;
    Some(Lit::new(v, s.trail.phase(v)))
}

// An assumption that is not true, of value x: it is false, or decided on.
fn take_up(s: &mut State, p: Lit, x: Value) -> Decision
    requires still { Still s.old }
    requires p_bound { p.0 < 2 * s.old.config.vars }
    requires x_value { (cell_of x ≡ value_lit s.old.trail.vars.values p.0) × (cell_of x ≢ 0) }
    requires level { decision_level s.old.trail.vars < 3 * s.old.config.vars }
    ensures { Decides (taken_up (state_at s.old) p.0) s.old s.new result }
{
    if x == Value::False {
        analyze_final(s, p.negate());
        return Decision::Failed;
    }
    open_level(s, p);
    Decision::Decided
}

// Every assumption has its level: the pick.
fn decide_free(s: &mut State, act: &Activities) -> Decision
    requires still { Still s.old }
    requires sized { s.old.config.vars ≤ length act.now.activities }
    requires level { decision_level s.old.trail.vars ≤ 2 * s.old.config.vars + length s.old.trail.vars.trail }
    ensures { Decides (assume act.now.activities [] (state_at s.old)) s.old s.new result }
{
    let Some(p) = pick_branch_lit(s, act) else {
        return Decision::Complete;
    };
    open_level(s, p);
    Decision::Decided
}

// The assumptions that have no level yet, in order; a true one opens an empty level. Then the pick.
pub fn decide(s: &mut State, act: &Activities, assumptions: &[u32]) -> Decision
    requires still { Still s.old }
    requires levels { Levels (length assumptions.now) s.old.trail.vars }
    requires sized { s.old.config.vars ≤ length act.now.activities }
    requires assumable { (length assumptions.now ≤ 2 * s.old.config.vars) × Every (λ p. p < 2 * s.old.config.vars) assumptions.now }
    ensures { Decides (decide act.now.activities assumptions.now (state_at s.old)) s.old s.new result }
{
    // By place: the assumption at k has level k + 1, so the first without a level is at the number of levels.
    for k in s.trail.decision_level()..assumptions.len() {
        let p = Lit(assumptions[k]);
        let x = s.trail.lit_value(p);
        if x != Value::True {
            return take_up(s, p, x);
        }
        s.trail.new_decision_level();
    }
    decide_free(s, act)
}

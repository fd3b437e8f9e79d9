// Rules 3 and 5: the clause that is learnt from a conflict, and the way back.
#![tactic(auto)]

ghost use Rattle.std.specs.Prelude.{◌≡◌};
ghost use Rattle.state.specs.Still.{Has, Beside};
ghost use Rattle.learn.specs.Reducing.{Reducible, Reduced};
ghost use Rattle.learn.specs.Learned.{Conflicting, Learned};
ghost use Rattle.learn.specs.Backtracking.{Unit, Learnable, unit_of, learnt_at};
ghost use Rattle.learn.specs.Adding.{Backable, Backs};

use activity::Activities;
use options::Mode;
use state::State;

// What the mode leaves of the literals in the buffer. Every mark is taken back.
fn reduce(s: &mut State)
    requires { Reducible s.old }
    ensures { Reduced s.old s.new }
{
    if s.config.mode == Mode::Minimise {
        minimise::minimise(&s.trail, &s.clauses, &mut s.scratch);
    } else {
        let x = &mut s.scratch;
        analyze::unmark_cells(&mut x.marks, &x.buffer);
    }
}

// The clause that is learnt stands in the buffer afterwards: the first UIP, minimised, with a literal of the highest level second. The result is that level.
pub fn analyze(s: &mut State, act: &mut Activities, confl: usize) -> usize
    requires { Conflicting s.old act.old confl }
    ensures { Learned s.old s.new act.old act.new confl result }
{
    analyze::first_uip(&s.trail, &s.clauses, &mut s.scratch, act, confl);
    reduce(s);
    analyze::highest_second(&s.trail, &mut s.scratch.buffer)
}

// A unit, in the buffer's first place, is set on level 0.
fn learn_unit(s: &mut State)
    requires { Unit s.old }
    ensures has { Has s.new (unit_of s.old) }
    ensures beside { Beside s.old s.new }
{
    s.cancel_until(0);
    s.trail.enqueue(s.scratch.buffer.at(0), None);
}

// A clause of two or more literals is stored, and is the reason of its first one.
fn learn_clause(s: &mut State, level: usize)
    requires { Learnable s.old level }
    ensures has { Has s.new (learnt_at s.old level) }
    ensures beside { Beside s.old s.new }
{
    let c = s.clauses.len();
    s.cancel_until(level);
    intake::store_buffer(s);
    s.trail.enqueue(s.scratch.buffer.at(0), Some(c));
}

// There is no storage for a learnt clause.
#[derive(Clone, Copy, Debug, PartialEq, Eq)]
pub struct NoStorage;

// Goes back with the clause in the buffer: a unit is set on level 0, another clause is stored. Where there is no storage, nothing is done.
pub fn add_learnt_and_backtrack(s: &mut State, level: usize) -> Result<(), NoStorage>
    requires { Backable s.old level }
    ensures { Backs s.old s.new level result }
{
    let n = s.scratch.buffer.len();
    if n == 1 {
        learn_unit(s);
        return Ok(());
    }
    if !s.clauses.has_room(n) {
        return Err(NoStorage);
    }
    learn_clause(s, level);
    Ok(())
}

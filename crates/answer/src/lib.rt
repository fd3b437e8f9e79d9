// A record's answer: its cells in out, and the state that it leaves.
#![tactic(auto)]

ghost use Rattle.std.specs.Prelude.{◌≡◌, true, ◌∷◌, [], ◌+◌, ◌≤◌, length};
ghost use Rattle.model.specs.Limits.{solve_besides};
ghost use Rattle.model.specs.State.{with_state};
ghost use Rattle.model.specs.Intake.{add_clause};
ghost use Rattle.model.specs.Search as model;
ghost use Rattle.ends.specs.Bounds.{Limited};
ghost use Rattle.state.specs.Still.{state_at, config_of};
ghost use Rattle.search.specs.Held.{solver_at, Assumable, Left, searched_of};
ghost use Rattle.answer.specs.Answered.{Between, Answered, Put};
ghost use Rattle.answer.specs.Backing.{StillOk};

use cells::{Cause, Verdict};
use search::{Query, Searched, Solver, Status};
use state::State;

// The cells of a solve that has ended; the result is how many.
fn put_answer(x: &Solver, r: Searched, out: &mut [u32]) -> usize
    requires room { x.now.state.config.vars + solve_besides ≤ length out.old }
    requires left { Left r.status x.now.state }
    ensures { Put (model.answer_of (searched_of x.now r)) out.old out.new result }
{
    let s = &x.state;
    match r.status {
        Status::True => cells::put_verdict(out, Verdict::True, r.conflicts, s.trail.values()),
        Status::False => {
            s.finals.sound();
            cells::put_verdict(out, Verdict::False, r.conflicts, s.finals.items())
        }
        Status::Undef => cells::put_cause(out, r.conflicts, Cause::Budget),
        Status::NoStorage => cells::put_cause(out, r.conflicts, Cause::Storage),
    }
}

// FALSE with an empty final clause holds for good.
fn still_ok(s: &mut State, status: Status)
    requires { Left status s.old }
    ensures { StillOk status s.old s.new }
{
    if status == Status::False && s.finals.len() == 0 {
        s.ok = false;
    }
}

// A solve where the clauses are not known to have no model. Rule 9: back to level 0, and the final clause is taken back.
// What is asked here and below is of the solver, the query and the room in out together, so no one type has it as an invariant.
fn solve_ok(x: &mut Solver, q: Query, out: &mut [u32]) -> usize
    requires between { Between x.old }
    requires ok { x.old.state.ok ≡ true }
    requires limited { Limited (config_of x.old.state.config) }
    requires assumable { Assumable x.old.state.config q.assumptions.now }
    requires room { x.old.state.config.vars + solve_besides ≤ length out.old }
    ensures { Answered (model.solve (config_of x.old.state.config) (solver_at x.old) q.entry.assumptions.now q.entry.budget).solver (model.solve (config_of x.old.state.config) (solver_at x.old) q.entry.assumptions.now q.entry.budget).answer x.old x.new out.old out.new result }
{
    let r = search::solve_internal(x, q);
    let n = put_answer(x, r, out);
    still_ok(&mut x.state, r.status);
    x.state.finals.clear();
    x.state.cancel_until(0);
    n
}

// A solve; where the clauses are known to have no model, nothing is searched. The result is how many cells were written.
pub fn solve(x: &mut Solver, q: Query, out: &mut [u32]) -> usize
    requires between { Between x.old }
    requires limited { Limited (config_of x.old.state.config) }
    requires assumable { Assumable x.old.state.config q.assumptions.now }
    requires room { x.old.state.config.vars + solve_besides ≤ length out.old }
    ensures { Answered (model.solve (config_of x.old.state.config) (solver_at x.old) q.entry.assumptions.now q.entry.budget).solver (model.solve (config_of x.old.state.config) (solver_at x.old) q.entry.assumptions.now q.entry.budget).answer x.old x.new out.old out.new result }
{
    if x.state.ok {
        return solve_ok(x, q, out);
    }
    cells::put_verdict(out, Verdict::False, 0, &[])
}

// A clause, answered in one cell.
pub fn clause(x: &mut Solver, part: &[u32], out: &mut [u32]) -> usize
    requires between { Between x.old }
    requires limited { Limited (config_of x.old.state.config) }
    requires assumable { Assumable x.old.state.config part.now }
    requires room { 1 ≤ length out.old }
    ensures { Answered (with_state (solver_at x.old) (add_clause (config_of x.old.state.config) (state_at x.old.state) part.now).state) ((add_clause (config_of x.old.state.config) (state_at x.old.state) part.now).answer ∷ []) x.old x.new out.old out.new result }
{
    out[0] = intake::add_clause(&mut x.state, part) as u32;
    1
}

// Rules 5, 6 and 8: a turn of the search, the search, and the searches of a solve.
#![tactic(auto)]

ghost use Rattle.std.specs.Prelude.{◌≡◌, suc, ◌+◌, ◌≤◌, ◌<◌, length};
ghost use Rattle.model.specs.State.{decision_level};
ghost use Rattle.model.specs.Search.{on_conflict, on_no_conflict, turn, search, solve_internal, most_turns, most_conflicts};
ghost use Rattle.ends.specs.Credit.{credit};
ghost use Rattle.ends.specs.Bounds.{Limited};
ghost use Rattle.state.specs.Still.{state_at, config_of};
ghost use Rattle.search.specs.Held.{solver_at, Conflicting, Running, Turned, Ended};

use activity::Activities;
use decide::Decision;
use state::State;

// The state in the work slice, and the activities in their own.
#[derive(Drop)]
pub struct Solver<'a> {
    pub state: State<'a>,
    pub activity: Activities<'a>,
}

// What a solve asks: what a record of it holds, in a crate that knows no script.
#[derive(Clone, Copy)]
pub struct Query<'q> {
    pub assumptions: &'q [u32],
    pub budget: u32,
}

// How a search ends. The final clause of False is the state's.
#[derive(Clone, Copy, Debug, PartialEq, Eq)]
pub enum Status {
    True,
    False,
    Undef,
    NoStorage,
}

// How many conflicts there were: in the solve, and in this search.
#[derive(Clone, Copy)]
pub struct Conflicts {
    pub solve: u32,
    pub search: u32,
}

// Clause confl is false: how the search ends, if it does.
fn on_conflict(x: &mut Solver, n: &mut Conflicts, confl: usize) -> Option<Status>
    requires conflicting { Conflicting x.old confl }
    requires few { (n.old.solve < 4294967295) × (n.old.search < 4294967295) }
    ensures { Turned (on_conflict (config_of x.old.state.config) n.old.solve n.old.search (solver_at x.old) confl) x.old x.new n.new result }
{
    n.solve += 1;
    if x.state.trail.decision_level() == 0 {
        return Some(Status::False);
    }
    let level = learn::analyze(&mut x.state, &mut x.activity, confl);
    if learn::add_learnt_and_backtrack(&mut x.state, level).is_err() {
        return Some(Status::NoStorage);
    }
    n.search += 1;
    x.activity.decay();
    None
}

// No clause is false. Here alone, restart and budget are looked at; then comes the next decision.
fn on_no_conflict(x: &mut Solver, q: Query, nof: u32, n: Conflicts) -> Option<Status>
    requires { Running q.assumptions.now x.old }
    ensures { Turned (on_no_conflict (config_of x.old.state.config) q.entry.assumptions.now q.entry.budget nof n.solve n.search (solver_at x.old)) x.old x.new n result }
{
    if nof <= n.search || q.budget <= n.solve {
        x.state.cancel_until(0);
        return Some(Status::Undef);
    }
    match decide::decide(&mut x.state, &x.activity, q.assumptions) {
        Decision::Decided => None,
        Decision::Complete => Some(Status::True),
        Decision::Failed => Some(Status::False),
    }
}

// One turn of the search: how it ends, if it does. What it takes stands apart: q is the solve's, nof the search's, and n is counted on.
fn turn(x: &mut Solver, q: Query, nof: u32, n: &mut Conflicts) -> Option<Status>
    requires running { Running q.assumptions.now x.old }
    requires few { (n.old.solve < 4294967295) × (n.old.search < 4294967295) }
    ensures { Turned (turn (config_of x.old.state.config) q.entry.assumptions.now q.entry.budget nof n.old.solve n.old.search (solver_at x.old)) x.old x.new n.new result }
{
    match propagate::propagate(&mut x.state) {
        Some(confl) => on_conflict(x, n, confl),
        None => on_no_conflict(x, q, nof, *n),
    }
}

// How a search or a solve ended, and the conflicts of the solve.
#[derive(Clone, Copy)]
pub struct Searched {
    pub status: Status,
    pub conflicts: u32,
}

// Turns, up to the one that ends the search; `before` are the conflicts of the solve so far.
fn search(x: &mut Solver, q: Query, nof: u32, before: u32) -> Searched
    requires running { Running q.assumptions.now x.old }
    requires few { before + credit (config_of x.old.state.config) (state_at x.old.state) ≤ most_conflicts (config_of x.old.state.config) }
    ensures { Ended (search (config_of x.old.state.config) q.entry.assumptions.now q.entry.budget nof (most_turns (config_of x.old.state.config) q.entry.assumptions.now) before 0 (solver_at x.old)) x.old x.new result }
{
    let mut n = Conflicts {
        solve: before,
        search: 0,
    };
    loop {
        if let Some(status) = turn(x, q, nof, &mut n) {
            return Searched {
                status,
                conflicts: n.solve,
            };
        }
    }
}

// Searches, each of Luby's next length, until one is not cut short by a restart.
pub fn solve_internal(x: &mut Solver, q: Query) -> Searched
    requires running { Running q.assumptions.now x.old }
    requires level { decision_level x.old.state.trail.vars ≡ 0 }
    requires limited { Limited (config_of x.old.state.config) }
    ensures { Ended (solve_internal (config_of x.old.state.config) q.entry.assumptions.now q.entry.budget (suc (most_conflicts (config_of x.old.state.config))) 0 0 (solver_at x.old)) x.old x.new result }
{
    let mut restarts = 0;
    let mut conflicts = 0;
    // A `for` over the restarts would have an end that is never reached, and need an answer there.
    loop {
        let nof = luby::luby(restarts) * x.state.config.unit;
        let r = search(x, q, nof, conflicts);
        if r.status != Status::Undef || q.budget <= r.conflicts {
            return r;
        }
        restarts += 1;
        conflicts = r.conflicts;
    }
}

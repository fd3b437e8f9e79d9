// Steps over a state that test what the layer below asks, and do nothing where it does not hold.
// What each makes of the state is its definition in specs/Steps.antt.
#![tactic(auto)]

ghost use Rattle.std.specs.Prelude.{◌+◌, ◌*◌, ◌<◌, ◌≤◌, ◌≡◌, length};
ghost use Rattle.model.specs.Store.{stored_literals};
ghost use Rattle.clause.specs.Cells.{reason_cell};
ghost use Rattle.options.specs.Numbers.{phase_number};
ghost use Rattle.state.specs.declared.State.{State};
ghost use Rattle.state.specs.Start.{Room, Started};
ghost use Rattle.tour.specs.Live.{Live};
ghost use Rattle.tour.specs.Steps.{opened, placed, gone_back, reblocked, sent, three, added, finished, unfinished};

mod sized;

use clause::Lit;
use options::Phase;
pub use sized::SizedTour;
use state::{Config, State};
use std::marker::Model;

// A state that stays live, whatever steps are taken. Contracts see the state.
#[derive(Drop)]
pub struct Tour<'a> {
    state: State<'a>,
}

impl<'a> Model for Tour<'a> {
    ghost Value = { State };

    ghost view = { λ t. t.state };

    ghost invariant = { λ t. Live t.state };
}

impl<'a> Tour<'a> {
    pub fn begin(config: Config, work: &'a mut [u32]) -> Tour<'a>
        requires { Room config (length work.old) }
        ensures { Started config work.old result }
    {
        Tour {
            state: State::new(config, work),
        }
    }

    // A live state from elsewhere: a caller that has a `State` goes on with it.
    pub fn of(state: State<'a>) -> Tour<'a>
        requires { Live state }
        ensures { result ≡ state.entry }
    {
        Tour { state }
    }

    // The state again.
    pub fn into_state(self) -> State<'a>
        ensures is { result ≡ self.entry }
        ensures live { Live self.entry }
    {
        let Tour { state } = self;
        state
    }

    // The state, and for a caller's proof that it is live.
    pub fn state(&self) -> &State<'a>
        ensures is { result.now ≡ self.now }
        ensures live { Live self.now }
    {
        &self.state
    }

    // Opens a level.
    pub fn open(&mut self)
        ensures { self.new ≡ opened self.old }
    {
        if self.state.trail.decision_level() < 3 * self.state.config.vars {
            self.state.trail.new_decision_level();
        }
    }

    // Puts a literal on the trail.
    pub fn put(&mut self, p: Lit, from: Option<u32>)
        ensures { self.new ≡ placed self.old p.0 (reason_cell from) }
    {
        let n = self.state.config.vars;
        if self.state.trail.assigned() < n && (p.var().0 as usize) < n {
            self.state.trail.enqueue(p, from.map(|c| c as usize));
        }
    }

    // Back to a level, where its end is on the trail and not above the last level's.
    pub fn back(&mut self, level: usize, phase: Phase)
        ensures { self.new ≡ gone_back self.old level (phase_number phase) }
    {
        let n = self.state.trail.decision_level();
        if n <= level {
            return;
        }
        let start = self.state.trail.limit(level);
        if start <= self.state.trail.assigned() && start <= self.state.trail.limit(n - 1) {
            self.state.trail.cancel_until(level, phase);
            self.state.qhead = start;
        }
    }

    // The first node of the list of l gets the blocker b.
    pub fn reblock(&mut self, l: Lit, b: Lit)
        ensures { self.new ≡ reblocked self.old l.0 b.0 }
    {
        if 2 * self.state.config.vars <= l.0 as usize {
            return;
        }
        let c = self.state.watches.walk(l);
        if self.state.watches.more(l, c) {
            let x = self.state.watches.node(l, c);
            self.state.watches.set_blocker(x, b);
        }
    }

    // The first node of the list of l goes to the list of m, with the blocker b.
    pub fn send(&mut self, l: Lit, m: Lit, b: Lit)
        ensures { self.new ≡ sent self.old l.0 m.0 b.0 }
    {
        let n = 2 * self.state.config.vars;
        if n <= l.0 as usize || n <= m.0 as usize || l == m {
            return;
        }
        let c = self.state.watches.walk(l);
        if self.state.watches.more(l, c) {
            let x = self.state.watches.node(l, c);
            self.state.watches.leave(l, c, x, m, b);
        }
    }

    // Stores a clause of three literals and attaches it.
    #[tactic(auto, using(crate::specs::Live::three_pushed))]
    fn add_three(&mut self, p: Lit, q: Lit, r: Lit)
        requires room { (length self.old.clauses.clauses < self.old.clauses.room) × (stored_literals self.old.clauses.clauses + 3 ≤ self.old.clauses.lit_room) }
        requires lits { (p.0 < 2 * self.old.config.vars) × (q.0 < 2 * self.old.config.vars) }
        ensures { self.new ≡ three self.old p.0 q.0 r.0 }
    {
        self.state.clauses.discard();
        self.state.clauses.push(p);
        self.state.clauses.push(q);
        self.state.clauses.push(r);
        self.state.store_pushed();
    }

    // The same, where there is room and the first two are literals.
    pub fn add(&mut self, p: Lit, q: Lit, r: Lit)
        ensures { self.new ≡ added self.old p.0 q.0 r.0 }
    {
        let n = 2 * self.state.config.vars;
        if self.state.clauses.has_room(3) && (p.0 as usize) < n && (q.0 as usize) < n {
            self.add_three(p, q, r);
        }
    }

    // One literal more in the final clause.
    pub fn finish(&mut self, l: Lit)
        ensures { self.new ≡ finished self.old l.0 }
    {
        if (l.0 as usize) < 2 * self.state.config.vars
            && self.state.finals.len() <= self.state.config.vars
        {
            self.state.finals.insert(l);
        }
    }

    // The final clause with no literals.
    pub fn unfinish(&mut self)
        ensures { self.new ≡ unfinished self.old }
    {
        self.state.finals.clear();
    }
}

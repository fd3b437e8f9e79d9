// The same steps, over a state whose blocks are all as large as the configuration asks.
ghost use Rattle.std.specs.Prelude.{◌≡◌, length};
ghost use Rattle.clause.specs.Cells.{reason_cell};
ghost use Rattle.options.specs.Numbers.{phase_number};
ghost use Rattle.state.specs.declared.State.{State};
ghost use Rattle.state.specs.Start.{Room, Started};
ghost use Rattle.tour.specs.SizedLive.{SizedLive};
ghost use Rattle.tour.specs.Steps.{opened, placed, gone_back, reblocked, sent, added, finished, unfinished};

use crate::Tour;
use clause::Lit;
use options::Phase;
use state::{Config, State};
use std::marker::Model;

// A tour with all blocks of these sizes, as one that is begun has. Each step is the tour's.
#[derive(Drop)]
pub struct SizedTour<'a> {
    tour: Tour<'a>,
}

impl<'a> Model for SizedTour<'a> {
    ghost Value = { State };

    ghost view = { λ t. t.tour };

    ghost invariant = { λ t. SizedLive t.tour };
}

impl<'a> SizedTour<'a> {
    pub fn begin(config: Config, work: &'a mut [u32]) -> SizedTour<'a>
        requires { Room config (length work.old) }
        ensures { Started config work.old result }
    {
        SizedTour {
            tour: Tour {
                state: State::new(config, work),
            },
        }
    }

    // A live state with these sizes from elsewhere: a caller that has a `State` goes on with it.
    pub fn of(state: State<'a>) -> SizedTour<'a>
        requires { SizedLive state }
        ensures { result ≡ state.entry }
    {
        SizedTour {
            tour: Tour::of(state),
        }
    }

    // The state again.
    pub fn into_state(self) -> State<'a>
        ensures is { result ≡ self.entry }
        ensures live { SizedLive self.entry }
    {
        let SizedTour { tour } = self;
        tour.into_state()
    }

    // The state, and for a caller's proof that it is live.
    pub fn state(&self) -> &State<'a>
        ensures is { result.now ≡ self.now }
        ensures live { SizedLive self.now }
    {
        &self.tour.state
    }

    pub fn open(&mut self)
        ensures { self.new ≡ opened self.old }
    {
        self.tour.open();
    }

    pub fn put(&mut self, p: Lit, from: Option<u32>)
        ensures { self.new ≡ placed self.old p.0 (reason_cell from) }
    {
        self.tour.put(p, from);
    }

    pub fn back(&mut self, level: usize, phase: Phase)
        ensures { self.new ≡ gone_back self.old level (phase_number phase) }
    {
        self.tour.back(level, phase);
    }

    pub fn reblock(&mut self, l: Lit, b: Lit)
        ensures { self.new ≡ reblocked self.old l.0 b.0 }
    {
        self.tour.reblock(l, b);
    }

    pub fn send(&mut self, l: Lit, m: Lit, b: Lit)
        ensures { self.new ≡ sent self.old l.0 m.0 b.0 }
    {
        self.tour.send(l, m, b);
    }

    pub fn add(&mut self, p: Lit, q: Lit, r: Lit)
        ensures { self.new ≡ added self.old p.0 q.0 r.0 }
    {
        self.tour.add(p, q, r);
    }

    pub fn finish(&mut self, l: Lit)
        ensures { self.new ≡ finished self.old l.0 }
    {
        self.tour.finish(l);
    }

    pub fn unfinish(&mut self)
        ensures { self.new ≡ unfinished self.old }
    {
        self.tour.unfinish();
    }
}

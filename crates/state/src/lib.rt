// The state of a run: the blocks that the work slice is divided into, and what stands beside them.
#![tactic(auto)]

ghost use Rattle.std.specs.Prelude.{◌≡◌, ◌<◌, length, drop};
ghost use Rattle.model.specs.State.{decision_level};
ghost use Rattle.model.specs.Trail.{cancel_until};
ghost use Rattle.options.specs.Numbers.{phase_number};
ghost use Rattle.trail.specs.View.{back_to, Undoable};
ghost use Rattle.state.specs.Back.{cut_to};
ghost use Rattle.state.specs.Still.{Still, Has, Beside, state_at};
ghost use Rattle.state.specs.Start.{Room, Started, used};
ghost use Rattle.state.specs.Fresh.{Storable, Stored};

use litset::LitSet;
use options::{Mode, Phase};
use scratch::Scratch;
use store::Store;
use trail::Trail;
use watch::Watches;

// What a script's header says, as sizes of slices: in a crate that knows no script.
#[derive(Clone, Copy)]
pub struct Config {
    pub vars: usize,
    pub room: usize,
    pub lit_room: usize,
    pub mode: Mode,
    pub phase: Phase,
    pub unit: u32,
}

// `Still` (specs/Still.antt) is what holds of it between two steps. It is no invariant of the type, since within a step it does not hold.
// Nor are `Running` and `Between`, which are of a query or of the activities too. `Limited` is none of `Config`: `new` takes any unit, 0 too.
#[derive(Drop)]
pub struct State<'a> {
    pub config: Config,
    pub trail: Trail<'a>,
    pub scratch: Scratch<'a>,
    pub watches: Watches<'a>,
    pub clauses: Store<'a>,
    pub finals: LitSet<'a>,
    pub qhead: usize,
    // The definition's, and apart from the blocks: it is false once the clauses taken are known to have no model, which no block shows.
    pub ok: bool,
}

impl<'a> State<'a> {
    // No clause and nothing assigned, whatever stood in the slice. `Room` is of the configuration and the slice's length, so it is asked and no invariant.
    pub fn new(config: Config, work: &'a mut [u32]) -> State<'a>
        requires { Room config (length work.old) }
        ensures { Started config work.old result }
    {
        let (state, _) = State::within(config, work);
        state
    }

    // The same, and the cells behind the blocks, which stay: no step has them.
    pub fn within(config: Config, work: &'a mut [u32]) -> (State<'a>, &'a mut [u32])
        requires { Room config (length work.old) }
        ensures state { Started config work.old result.0 }
        ensures behind { result.1.now ≡ drop (used config) work.old }
    {
        let n = config.vars;
        let (trail, rest) = work.split_at_mut(8 * n);
        let (scratch, rest) = rest.split_at_mut(5 * n);
        let (watches, rest) = rest.split_at_mut(8 * n + 4 * config.room);
        let (starts, rest) = rest.split_at_mut(config.room + 1);
        let (literals, rest) = rest.split_at_mut(config.lit_room);
        let (flags, rest) = rest.split_at_mut(2 * n);
        let (items, behind) = rest.split_at_mut(n + 1);
        let state = State {
            config,
            trail: Trail::new(trail, n),
            scratch: Scratch::new(scratch, n),
            watches: Watches::new(watches, 2 * n, 2 * config.room),
            clauses: Store::new(starts, literals),
            finals: LitSet::new(flags, items),
            qhead: 0,
            ok: true,
        };
        (state, behind)
    }

    // Back to a level: what stands above it is unset, and the phases are saved as the configuration says.
    pub fn cancel_until(&mut self, level: usize)
        requires { Still self.old }
        ensures has { Has self.new (cancel_until (phase_number self.old.config.phase) (state_at self.old) level) }
        ensures beside { Beside self.old self.new }
        ensures stored { (self.new.watches ≡ self.old.watches) × (self.new.clauses ≡ self.old.clauses) }
        ensures trail { self.new.trail ≡ back_to (phase_number self.old.config.phase) self.old.trail level }
    {
        let phase = self.config.phase;
        self.back_to(level, phase);
    }

    // The same in any phase, and of a state that is not still.
    pub fn back_to(&mut self, level: usize, phase: Phase)
        requires { level < decision_level self.old.trail.vars → Undoable (length self.old.trail.vars.values) self.old.trail.vars level }
        ensures { self.new ≡ cut_to (phase_number phase) self.old level }
    {
        if self.trail.decision_level() <= level {
            return;
        }
        self.trail.cancel_until(level, phase);
        self.qhead = self.trail.assigned();
    }

    // The literals pushed become a clause, and its first two are watched, each with the other as blocker.
    pub fn store_pushed(&mut self)
        requires { Storable self.old.clauses self.old.watches }
        ensures { Stored self.old self.new }
    {
        let c = self.clauses.len();
        self.clauses.close();
        let p = self.clauses.lit(c, 0);
        let q = self.clauses.lit(c, 1);
        self.watches.attach(c, p, q);
    }
}

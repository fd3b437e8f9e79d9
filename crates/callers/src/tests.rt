ghost use Rattle.std.specs.Prelude.{◌≡◌, ◌<◌, length, get_or, eqb};

use clause::{Lit, Var};
use options::{Mode, Phase};
use scratch::{Lits, Marks};
use state::{Config, State};
use tour::{SizedTour, Tour};

// Whoever made the marks, what is not 1 is 0.
fn is_0(m: &Marks, v: Var) -> bool
    requires { v.0 < length m.now }
    ensures { result ≡ eqb (get_or m.now v.0 0) 0 }
{
    m.sound();
    !m.is_set(v)
}

#[test]
fn marks_of_a_caller_are_0_or_1(rt: HostRuntime) {
    let mut cells = [7u32; 3];
    let mut m = Marks::new(&mut cells);
    m.set(Var(2));
    m.set(Var(0));
    m.unset(Var(0));
    assert!(rt; m.is_set(Var(2)));
    assert!(rt; is_0(&m, Var(0)));
    assert!(rt; is_0(&m, Var(1)));
    assert!(rt; !is_0(&m, Var(2)));
    // As cells they take any number.
    let mut c = m.into_mark_cells();
    assert_eq!(rt; c.at(Var(2)), 1);
    c.put(Var(2), 7);
    assert_eq!(rt; c.at(Var(2)), 7);
    c.put(Var(2), 0);
    let m = Marks::of(c);
    assert!(rt; is_0(&m, Var(2)));
}

#[test]
fn the_marks_of_a_buffer_are_taken_back(rt: HostRuntime) {
    let mut cells = [7u32; 3];
    let mut m = Marks::new(&mut cells);
    m.set(Var(1));
    let mut row = [7u32; 2];
    let mut buffer = Lits::new(&mut row);
    buffer.push(Lit(0));
    buffer.push(Lit(3));
    analyze::unmark_buffer(&mut m, &buffer);
    for v in 0..3 {
        assert!(rt; is_0(&m, Var(v)));
    }
}

const CONFIG: Config = Config {
    vars: 4,
    room: 6,
    lit_room: 24,
    mode: Mode::Keep,
    phase: Phase::Unsaved,
    unit: 0,
};

// Every step of a tour over a state whose store is larger than its configuration says.
#[test]
fn a_tour_is_of_any_live_state(rt: HostRuntime) {
    let mut work = [7u32; 152];
    let mut state = State::new(CONFIG, &mut work);
    state.config.room = 1;
    let mut t = Tour::of(state);
    t.add(Lit(0), Lit(2), Lit(5));
    t.add(Lit(1), Lit(2), Lit(6));
    assert_eq!(rt; t.state().clauses.len(), 2);
    t.reblock(Lit(1), Lit(5));
    t.send(Lit(1), Lit(7), Lit(6));
    t.open();
    t.put(Lit(3), Some(1));
    assert_eq!(rt; t.state().trail.assigned(), 1);
    t.back(0, Phase::Full);
    t.finish(Lit(5));
    assert_eq!(rt; t.state().finals.len(), 1);
    t.unfinish();
    let s = t.into_state();
    assert_eq!(rt; s.trail.assigned(), 0);
    assert_eq!(rt; s.finals.len(), 0);
    assert_eq!(rt; s.config.room, 1);
}

#[test]
fn a_sized_tour_is_given_back_and_taken_up(rt: HostRuntime) {
    let mut work = [7u32; 152];
    let mut t = SizedTour::begin(CONFIG, &mut work);
    t.open();
    let t = SizedTour::of(t.into_state());
    assert_eq!(rt; t.state().trail.decision_level(), 1);
}

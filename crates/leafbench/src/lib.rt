// Loops over the state's functions, for measuring them from outside.
#![tactic(auto)]

ghost use Rattle.std.specs.Prelude.{◌*◌, ◌<◌, ◌≤◌, ◌≡◌, length, get_or};
ghost use Rattle.trail.specs.View.{Counted};
ghost use Rattle.watch.specs.View.{list_of};
ghost use Rattle.leafbench.specs.Results.{filled, put_on, blocks, hits, leaf_trail, leaf_watch, leaf_work};
ghost use Rattle.leafbench.specs.Loops.{Ample, SizedRow};

use clause::Lit;
use options::{Mode, Phase};
use state::Config;
use tour::SizedTour;

// With 64 variables.
const CONFIG: Config = Config {
    vars: 64,
    room: 64,
    lit_room: 256,
    mode: Mode::Keep,
    phase: Phase::Unsaved,
    unit: 0,
};

// The literals of `order` go on the trail.
fn fill(t: &mut SizedTour, order: &[u32])
    ensures { t.new ≡ filled t.old order.now }
{
    for p in order {
        t.put(Lit(*p), Some(0));
    }
}

// A level is opened, filled and taken back: how many literals were put on the trail.
fn turn(t: &mut SizedTour, order: &[u32]) -> usize
    requires { Counted t.old.trail 0 0 }
    ensures config { t.new.config ≡ t.old.config }
    ensures none { Counted t.new.trail 0 0 }
    ensures value { result ≡ put_on t.old.config.vars 0 order.now }
{
    t.open();
    fill(t, order);
    let n = t.state().trail.assigned();
    t.back(0, Phase::Full);
    n
}

fn turns(t: &mut SizedTour, order: &[u32], n: u32) -> u64
    requires none { Counted t.old.trail 0 0 }
    requires order { length order.now ≤ 64 }
    ensures { result ≡ n * put_on t.old.config.vars 0 order.now }
{
    let mut put: u64 = 0;
    for _ in 0..n {
        put += turn(t, order) as u64;
    }
    put
}

// 32 clauses whose first literal is 0.
fn clauses(t: &mut SizedTour)
    requires ample { Ample t.old }
    requires row { SizedRow t.old t.old 0 }
    ensures { SizedRow t.old t.new 32 }
{
    for i in 0..32u32 {
        t.add(Lit(0), Lit(2 * i + 2), Lit(4));
    }
}

// Whether the blocker of node x is true.
fn blocks(t: &SizedTour, x: usize) -> bool
    requires { x < length t.now.watches.blockers }
    ensures { result ≡ blocks t.now (get_or t.now.watches.blockers x 0) }
{
    let s = t.state();
    let b = s.watches.blocker(x);
    (b.var().0 as usize) < s.config.vars && s.trail.is_true(b)
}

// The list of l is walked: how many of its blockers are true.
fn walk(t: &SizedTour, l: Lit) -> u64
    requires { (l.0 < 2 * t.now.config.vars) × (length (list_of t.now.watches l.0) ≤ 32) }
    ensures { result ≡ hits t.now (list_of t.now.watches l.0) }
{
    let s = t.state();
    let mut k: u64 = 0;
    let mut c = s.watches.walk(l);
    while s.watches.more(l, c) {
        let x = s.watches.node(l, c);
        k += u64::from(blocks(t, x));
        c = s.watches.stay(l, c, x);
    }
    k
}

// As `turns`: one function of both would take a closure, and be no shorter.
fn walks(t: &SizedTour, l: Lit, n: u32) -> u64
    requires { (l.0 < 2 * t.now.config.vars) × (length (list_of t.now.watches l.0) ≤ 32) }
    ensures { result ≡ n * hits t.now (list_of t.now.watches l.0) }
{
    let mut k: u64 = 0;
    for _ in 0..n {
        k += walk(t, l);
    }
    k
}

// n levels, each filled with the literals of `order` and taken back: how many literals were put on the trail. With 64 variables. The slice is left zero. 0 where a slice
// is too short, here and below, since C takes no Option.
pub fn leaf_trail(work: &mut [u32], order: &[u32], n: u32) -> u64
    ensures value { result ≡ leaf_trail (length work.old) order.now n }
    ensures work_after { work.new ≡ leaf_work work.old (length order.now) }
{
    // The same test stands in both: a function of it would have to give back a tour or none.
    if work.len() < 2114 || order.len() < 64 {
        return 0;
    }
    let mut t = SizedTour::begin(CONFIG, work);
    let k = turns(&mut t, &order[..64], n);
    work.fill(0);
    k
}

// n walks of a list of 32 nodes, where the literals of `order` are true: how many true blockers were met. The slice is left zero.
pub fn leaf_watch(work: &mut [u32], order: &[u32], n: u32) -> u64
    ensures value { result ≡ leaf_watch (length work.old) order.now n }
    ensures work_after { work.new ≡ leaf_work work.old (length order.now) }
{
    if work.len() < 2114 || order.len() < 64 {
        return 0;
    }
    let mut t = SizedTour::begin(CONFIG, work);
    clauses(&mut t);
    fill(&mut t, &order[..64]);
    let k = walks(&t, Lit(1), n);
    work.fill(0);
    k
}

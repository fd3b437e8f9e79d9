// Runs what stands on no other code: Luby's terms, activities by their bits, and a set of literals. The gate compares what it writes.
#![tactic(auto)]

ghost use Rattle.std.specs.Prelude.{◌<◌, ◌≤◌, ◌≡◌, length};

use activity::Activities;
use clause::{Lit, Var};
use litset::LitSet;

// What cannot be written is left out: the gate then finds that it is missing.
// Statecheck has the same line: a crate that both would use is no plainer than the line.
fn number(rt: &impl Print, n: u64) {
    let _ = print!(rt; "{n} ");
}

// A float's bits, or a dash for a NaN.
fn bits(rt: &impl Print, x: f64) {
    if x.is_nan() {
        let _ = print!(rt; "- ");
    } else {
        let n = x.to_bits();
        let _ = print!(rt; "{n:016x} ");
    }
}

fn line(rt: &impl Print) {
    let _ = println!(rt);
}

// Terms first to end - 1.
fn terms(rt: &impl Print, first: u32, end: u32)
    requires { (first ≤ end) × (end < 131072) }
{
    for x in first..end {
        number(rt, u64::from(luby::luby(x)));
    }
    line(rt);
}

// Variable v is bumped n times, with a decay after each.
#[tactic(auto, using(activity::specs::Activities::bump_sized, activity::specs::Activities::decay_sized))]
fn bumps(act: &mut Activities, v: Var, n: u32)
    requires { v.0 < length act.old.activities }
    ensures { length act.new.activities ≡ length act.old.activities }
{
    for _ in 0..n {
        act.bump(v);
        act.decay();
    }
}

// The activities, and what a bump adds.
fn activities(rt: &impl Print, act: &Activities) {
    for x in act.activities() {
        bits(rt, *x);
    }
    bits(rt, act.increment());
    line(rt);
}

// What is picked: a variable, or the number of variables where none is.
fn picked(rt: &impl Print, values: &[u32; 3], act: &Activities)
    requires { 3 ≤ length act.now.activities }
{
    match act.pick(values) {
        Some(v) => number(rt, u64::from(v.0)),
        None => number(rt, 3),
    }
}

// The pick where all variables are unset, only the first, and none.
fn picks(rt: &impl Print, act: &Activities)
    requires { 3 ≤ length act.now.activities }
{
    picked(rt, &[2, 2, 2], act);
    picked(rt, &[2, 0, 1], act);
    picked(rt, &[0, 1, 0], act);
    line(rt);
}

// One member more, where there is room.
fn put(set: &mut LitSet, l: u32)
    requires { (length set.old.flag_cells ≡ 6) × (length set.old.item_cells ≡ 4) }
    ensures { (length set.new.flag_cells ≡ 6) × (length set.new.item_cells ≡ 4) }
{
    if set.len() < 4 && l < 6 {
        set.insert(Lit(l));
    }
}

fn members(rt: &impl Print, set: &LitSet) {
    number(rt, set.len() as u64);
    for l in set.items() {
        number(rt, u64::from(*l));
    }
    line(rt);
}

// A set that gets three literals, one of them twice, is cleared, and has one literal again.
fn sets(rt: &impl Print) {
    let mut flags = [7u32; 6];
    let mut items = [7u32; 4];
    let mut set = LitSet::new(&mut flags, &mut items);
    put(&mut set, 5);
    put(&mut set, 0);
    put(&mut set, 5);
    put(&mut set, 3);
    members(rt, &set);
    set.clear();
    members(rt, &set);
    put(&mut set, 5);
    members(rt, &set);
}

fn main(rt: HostRuntime) {
    terms(&rt, 0, 15);
    terms(&rt, 1021, 1026);
    terms(&rt, 2044, 2048);
    // Variable 1 is bumped once, then variable 2 often.
    let mut cells = [1.0f64; 3];
    let mut act = Activities::new(&mut cells);
    bumps(&mut act, Var(1), 1);
    activities(&rt, &act);
    bumps(&mut act, Var(2), 5000);
    activities(&rt, &act);
    picks(&rt, &act);
    sets(&rt);
}

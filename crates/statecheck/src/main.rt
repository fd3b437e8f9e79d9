// Runs the state's functions over one work slice of noise. The gate compares what it writes.
#![tactic(auto)]

ghost use Rattle.std.specs.Prelude.{◌+◌, ◌<◌, ◌≡◌, None, length};
ghost use Rattle.clause.specs.Cells.{reason_cell};
ghost use Rattle.state.specs.Walk.{On, More};
ghost use Rattle.state.specs.Start.{Room};
ghost use Rattle.tour.specs.Steps.{opened, placed, finished, unfinished};

use clause::{Lit, Var};
use litset::LitSet;
use options::{Mode, Phase};
use state::Config;
use store::Store;
use tour::SizedTour;
use trail::Trail;
use watch::{Cursor, Watches};

// What cannot be written is left out: the gate then finds that it is missing.
fn put(rt: &impl Print, text: &str) {
    let _ = rt.print(text);
}

// Leafcheck has the same line: a crate that both would use is no plainer than the line.
fn number(rt: &impl Print, n: u64) {
    let _ = print!(rt; "{n} ");
}

// A variable's value, level, reason and phase; a dash where there is no reason.
fn variable(rt: &impl Print, t: &Trail, v: Var)
    requires { v.0 < length t.now.vars.values }
{
    number(rt, t.value(v) as u64);
    number(rt, t.level(v) as u64);
    match t.reason(v) {
        None => put(rt, "- "),
        Some(c) => number(rt, c as u64),
    }
    number(rt, u64::from(t.phase(v)));
    put(rt, "| ");
}

fn variables(rt: &impl Print, t: &Trail) {
    put(rt, "variables ");
    t.sound();
    for v in 0..t.vars() {
        variable(rt, t, Var(v as u32));
    }
    put(rt, "\n");
}

// Here, in `limits` and in `all_clauses` by place: a block hands out its literals, limits and clauses one at a time, and has no iterator.
fn trail(rt: &impl Print, t: &Trail) {
    put(rt, "trail ");
    for i in 0..t.assigned() {
        number(rt, u64::from(t.at(i).0));
    }
    put(rt, "\n");
}

fn limits(rt: &impl Print, t: &Trail) {
    put(rt, "limits ");
    for k in 0..t.decision_level() {
        number(rt, t.limit(k) as u64);
    }
    put(rt, "\n");
}

fn assigned(rt: &impl Print, t: &Trail) {
    number(rt, t.assigned() as u64);
    number(rt, t.decision_level() as u64);
    variables(rt, t);
    trail(rt, t);
    limits(rt, t);
}

fn lits(rt: &impl Print, part: &[u32]) {
    for l in part {
        number(rt, u64::from(*l));
    }
}

fn all_clauses(rt: &impl Print, clauses: &Store) {
    put(rt, "clauses ");
    for c in 0..clauses.len() {
        lits(rt, clauses.clause(c));
        put(rt, "| ");
    }
    put(rt, "\n");
}

// The node at the cursor and its blocker, and on.
fn visit(rt: &impl Print, w: &Watches, l: Lit, c: Cursor) -> Cursor
    requires l_bound { l.0 < length w.now.lists }
    requires on { On l.0 c w.now × More l.0 c w.now }
    ensures { On l.0 result w.now × (result.passed ≡ c.passed + 1) }
{
    let x = w.node(l, c);
    number(rt, x as u64);
    number(rt, u64::from(w.blocker(x).0));
    w.stay(l, c, x)
}

fn list(rt: &impl Print, w: &Watches, l: Lit)
    requires { l.0 < length w.now.lists }
{
    let mut c = w.walk(l);
    while w.more(l, c) {
        c = visit(rt, w, l, c);
    }
    put(rt, "| ");
}

fn lists(rt: &impl Print, t: &SizedTour) {
    put(rt, "watches ");
    let s = t.state();
    for l in 0..2 * s.config.vars {
        list(rt, &s.watches, Lit(l as u32));
    }
    put(rt, "\n");
}

fn finals(rt: &impl Print, set: &LitSet) {
    put(rt, "final ");
    lits(rt, set.items());
    put(rt, "\n");
}

// Two clauses, and a third that is refused: its first literal is of no variable.
fn store_some(rt: &impl Print, t: &mut SizedTour)
    ensures { t.new.config ≡ t.old.config }
{
    t.add(Lit(0), Lit(2), Lit(5));
    t.add(Lit(1), Lit(2), Lit(6));
    t.add(Lit(8), Lit(2), Lit(6));
    all_clauses(rt, &t.state().clauses);
    lists(rt, t);
}

// The first node of list 3 gets another blocker, then goes to list 7.
fn clauses_part(rt: &impl Print, t: &mut SizedTour)
    ensures { t.new.config ≡ t.old.config }
{
    store_some(rt, t);
    t.reblock(Lit(3), Lit(5));
    lists(rt, t);
    t.send(Lit(3), Lit(7), Lit(6));
    lists(rt, t);
}

// A level, and its first literal.
fn decide(t: &mut SizedTour, p: Lit)
    ensures { t.new ≡ placed (opened t.old) p.0 (reason_cell None) }
{
    t.open();
    t.put(p, None);
}

// Two levels with one literal each, and a third with two.
fn climb(t: &mut SizedTour)
    ensures { t.new.config ≡ t.old.config }
{
    decide(t, Lit(1));
    decide(t, Lit(2));
    decide(t, Lit(4));
    t.put(Lit(6), Some(1));
}

// Up, back to level 1, and back to level 0, with what is assigned before each way back.
fn swing(rt: &impl Print, t: &mut SizedTour, phase: Phase)
    ensures { t.new.config ≡ t.old.config }
{
    climb(t);
    assigned(rt, &t.state().trail);
    t.back(1, phase);
    assigned(rt, &t.state().trail);
    t.back(0, phase);
}

// Three literals, two of them the same; and none again.
fn final_clause(rt: &impl Print, t: &mut SizedTour)
    ensures { t.new ≡ unfinished (finished (finished (finished t.old 5) 0) 5) }
{
    t.finish(Lit(5));
    t.finish(Lit(0));
    t.finish(Lit(5));
    finals(rt, &t.state().finals);
    t.unfinish();
    finals(rt, &t.state().finals);
}

fn run<'a>(rt: &impl Print, config: Config, work: &'a mut [u32]) -> SizedTour<'a>
    requires { Room config (length work.old) }
    ensures { result.config ≡ config }
{
    let mut t = SizedTour::begin(config, work);
    clauses_part(rt, &mut t);
    // In each of the phase modes.
    swing(rt, &mut t, Phase::Unsaved);
    swing(rt, &mut t, Phase::Limited);
    swing(rt, &mut t, Phase::Full);
    final_clause(rt, &mut t);
    t
}

fn main(rt: HostRuntime) {
    let mut work = [7u32; 152];
    let config = Config {
        vars: 4,
        room: 6,
        lit_room: 24,
        mode: Mode::Keep,
        phase: Phase::Unsaved,
        unit: 0,
    };
    // The tour ends here, and the cells are free again.
    let _ = run(&rt, config, &mut work);
    work.fill(0);
    // How many cells are not 0.
    let used = work.iter().filter(|x| **x != 0).count();
    number(&rt, used as u64);
    put(&rt, "\n");
}

// Rule 2: propagation over the watch lists.
#![tactic(auto)]

ghost use Rattle.std.specs.Prelude.{◌≡◌, false, [], ◌∷◌, ◌+◌, ◌*◌, ◌/◌, ◌≤◌, ◌<◌, length, get_or, drop};
ghost use Rattle.model.specs.Lit.{neg, is_false};
ghost use Rattle.model.specs.Propagate.{false_second, new_watch, visit, propagate};
ghost use Rattle.lawbase.specs.Basics.{◌∈◌};
ghost use Rattle.trail.specs.View.{LitsOf};
ghost use Rattle.store.specs.View.{clause_of};
ghost use Rattle.watch.specs.Walk.{Gone};
ghost use Rattle.state.specs.Still.{Sized, Still, state_at};
ghost use Rattle.watching.specs.Propagate.{turn};
ghost use Rattle.propagate.specs.Visit.{list_at};
ghost use Rattle.propagate.specs.View.{put_clause, Paired, At, Passed, Movable, exchanged, at_node, Lookable, Settles, Looks, Walks, Looked, Gives};

use clause::Lit;
use state::State;
use store::Store;
use trail::Trail;
use watch::{Cursor, Watches};

// A watch on a walk: the literal whose list is walked, the cursor at the watch, and its node.
// Where it stands in the lists (`At`) depends on them, so it is asked and no invariant.
#[derive(Clone, Copy)]
struct Place {
    list: Lit,
    cursor: Cursor,
    node: usize,
}

impl Place {
    // The clause that is watched.
    fn clause(self) -> usize
        ensures { result ≡ self.node / 2 }
    {
        self.node / 2
    }
}

// Clause c gets its false literal f second; f is one of its first two. The other one comes first, and is given back: it is the sum of both less f:
// a test which of the two is f would be guessed wrong every second time.
fn false_second(clauses: &mut Store, c: usize, f: Lit) -> Lit
    requires { Paired f.0 (clause_of clauses.old c) }
    ensures clauses { clauses.new ≡ put_clause clauses.old c (false_second f.0 (clause_of clauses.old c)) }
    ensures value { result.0 ≡ get_or (false_second f.0 (clause_of clauses.old c)) 0 0 }
{
    clauses.sound();
    let a = clauses.lit(c, 0);
    let b = clauses.lit(c, 1);
    let q = Lit(a.0 + b.0 - f.0);
    clauses.set_lit(c, 0, q);
    clauses.set_lit(c, 1, f);
    q
}

// The place, from 2 on, of the clause's first literal that is not false.
#[tactic(auto, using(crate::specs::Laws::search_here, crate::specs::Laws::search_next, crate::specs::Laws::search_end))]
fn new_watch(trail: &Trail, clause: &[u32]) -> Option<usize>
    requires { LitsOf (length trail.now.vars.values) clause.now }
    ensures { result ≡ new_watch trail.now.vars.values 2 (drop 2 clause.now) }
{
    // By place, since the place is what is sought; `position` in the rest would give one that is two less.
    for k in 2..clause.len() {
        if !trail.is_false(Lit(clause[k])) {
            return Some(k);
        }
    }
    None
}

// The watch stays with the blocker b.
#[tactic(auto, unfolding(watch::specs::View::blocked))]
fn pass(watches: &mut Watches, at: Place, b: Lit) -> Cursor
    requires { At at watches.old }
    ensures { Passed watches.old watches.new at.list.0 b.0 at.cursor at.node result }
{
    watches.sound();
    watches.set_blocker(at.node, b);
    watches.stay(at.list, at.cursor, at.node)
}

// The watch goes to the literal at k of its clause, which becomes the second; the false literal takes its place.
fn go(clauses: &mut Store, watches: &mut Watches, at: Place, k: usize, b: Lit)
    requires at { At at watches.old }
    requires movable { Movable (length watches.old.lists) at.list.0 (at_node clauses.old at.node) k }
    ensures clauses { clauses.new ≡ exchanged clauses.old at.node at.list.0 k }
    ensures watches { Gone watches.new at.list.0 (neg (get_or (at_node clauses.old at.node) k 0)) b.0 watches.old at.cursor }
{
    clauses.sound();
    let c = at.clause();
    let l = clauses.lit(c, k);
    clauses.set_lit(c, 1, l);
    clauses.set_lit(c, k, at.list.negate());
    watches.leave(at.list, at.cursor, at.node, l.negate(), b);
}

// No other literal can be watched. The clause's first literal q is false, which is a conflict, or it becomes true: then the walk goes on at the cursor given.
fn settle(trail: &mut Trail, watches: &mut Watches, at: Place, q: Lit) -> Option<Cursor>
    requires at { At at watches.old }
    requires q_bound { q.0 < 2 * length trail.old.vars.values }
    requires room { is_false trail.old.vars.values q.0 ≡ false → length trail.old.vars.trail < length trail.old.vars.values }
    ensures { Settles trail.old trail.new watches.old watches.new at.list.0 q.0 at.cursor at.node result }
{
    watches.sound();
    let next = pass(watches, at, q);
    if trail.is_false(q) {
        return None;
    }
    trail.enqueue(q, Some(at.clause()));
    Some(next)
}

// A watch whose blocker is not true; its clause has q first and its false literal second. Where the clause is not false, the cursor at the next watch.
fn look_clause(s: &mut State, at: Place, q: Lit) -> Option<Cursor>
    requires sized { Sized s.old }
    requires at { At at s.old.watches }
    requires lookable { Lookable s.old.config.vars at.list.0 (length s.old.trail.vars.trail) s.old.trail.vars.values (at_node s.old.clauses at.node) }
    requires q_value { q.0 ≡ get_or (at_node s.old.clauses at.node) 0 0 }
    ensures { Looks s.old s.new at.list.0 at.cursor at.node result }
{
    if s.trail.is_true(q) {
        return Some(pass(&mut s.watches, at, q));
    }
    match new_watch(&s.trail, s.clauses.clause(at.clause())) {
        Some(k) => {
            go(&mut s.clauses, &mut s.watches, at, k, q);
            Some(at.cursor)
        }
        None => settle(&mut s.trail, &mut s.watches, at, q),
    }
}

// A watch in the list of a literal that has become true. Where its clause is not false, the cursor at the next watch.
fn look(s: &mut State, at: Place) -> Option<Cursor>
    requires walks { Walks s.old at.list.0 at.cursor }
    requires at { At at s.old.watches }
    ensures { Looked s.old s.new at.list.0 at.cursor at.node result }
{
    if s.trail.is_true(s.watches.blocker(at.node)) {
        return Some(s.watches.stay(at.list, at.cursor, at.node));
    }
    let q = false_second(&mut s.clauses, at.clause(), at.list.negate());
    look_clause(s, at, q)
}

// The watches of p in turn: the false clause, if there is one.
fn visit(s: &mut State, p: Lit) -> Option<usize>
    requires still { Still s.old }
    requires set { p.0 ∈ s.old.trail.vars.trail }
    ensures { Gives s.old s.new (visit p.0 [] (list_at p.0 (state_at s.old)) (state_at s.old)) result }
{
    let mut cursor = s.watches.walk(p);
    while s.watches.more(p, cursor) {
        let node = s.watches.node(p, cursor);
        let at = Place {
            list: p,
            cursor,
            node,
        };
        let Some(next) = look(s, at) else {
            s.qhead = s.trail.assigned();
            return Some(at.clause());
        };
        cursor = next;
    }
    None
}

// The literal at the head of the queue: the false clause, if there is one.
fn turn(s: &mut State) -> Option<usize>
    requires still { Still s.old }
    requires waits { s.old.qhead < length s.old.trail.vars.trail }
    ensures { Gives s.old s.new (turn (state_at s.old)) result }
{
    let p = s.trail.at(s.qhead);
    s.qhead += 1;
    visit(s, p)
}

// Takes the literals of the queue in turn, to its end or to a false clause.
pub fn propagate(s: &mut State) -> Option<usize>
    requires { Still s.old }
    ensures { Gives s.old s.new (propagate s.old.config.vars (state_at s.old)) result }
{
    // No `for`: what a turn assigns joins the queue.
    while s.qhead < s.trail.assigned() {
        if let Some(c) = turn(s) {
            return Some(c);
        }
    }
    None
}

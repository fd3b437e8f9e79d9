// Rule 3: from a false clause to the clause that is learnt. As in all rules, the blocks are lent one by one and not as a struct:
// so a rule writes some while it reads others, and what it does not take it cannot change.
#![tactic(auto)]

ghost use Rattle.std.specs.Prelude.{◌≡◌, true, [], ◌∷◌, ◌+◌, ◌*◌, ◌-◌, ◌<◌, ◌≤◌, length, get_or, drop, replicate};
ghost use Rattle.model.specs.Lit.{var, neg};
ghost use Rattle.model.specs.Analyze.{join};
ghost use Rattle.learning.specs.Marks.{MarksOf};
ghost use Rattle.trail.specs.View.{LitsOf};
ghost use Rattle.analyze.specs.Joining.{is_new, Joinable, Joins};
ghost use Rattle.analyze.specs.Walking.{last_seen, Turning, Resolves};
ghost use Rattle.analyze.specs.Uip.{Conflicted, Uip};
ghost use Rattle.analyze.specs.Second.{highest_place, Seconded};

use activity::Activities;
use clause::Lit;
use scratch::{Lits, MarkCells, Marks, Scratch};
use store::Store;
use trail::Trail;

// That literals are of the trail's variables (`LitsOf`), and that each variable has a mark, is asked here and in rules 4 and 6:
// it depends on the trail and the marks, so no type of one of them has it as an invariant.

// Whether a literal joins: its variable is not marked, and above level 0. Rule 4 asks the same (`is_open` of crate minimise):
// to share the line would take a crate between the two.
fn joins(trail: &Trail, marks: &MarkCells, q: Lit) -> bool
    requires { (var q.0 < length trail.now.vars.values) × (length marks.now ≡ length trail.now.vars.values) }
    ensures { result ≡ is_new trail.now.vars marks.now q.0 }
{
    !marks.is_set(q.var()) && 0 < trail.level(q.var())
}

// A literal joins: it is marked and bumped, and counted on the conflict's level, or else put to the clause. The result is how many are on that level.
fn join_lit(
    trail: &Trail,
    scratch: &mut Scratch,
    act: &mut Activities,
    q: Lit,
    path: usize,
) -> usize
    requires joinable { Joinable trail.now scratch.old act.old path (q.0 ∷ []) }
    requires new { is_new trail.now.vars scratch.old.marks q.0 ≡ true }
    ensures { Joins trail.now scratch.old scratch.new act.old act.new path result (q.0 ∷ []) }
{
    let v = q.var();
    scratch.marks.set(v);
    act.bump(v);
    if trail.level(v) == trail.decision_level() {
        return path + 1;
    }
    scratch.buffer.push(q);
    path
}

// The literals of the part join the resolvent, of which `path` are on the conflict's level; the result is how many are then.
// The count goes in and comes out: it is the walk's, and no block's.
fn join(
    trail: &Trail,
    scratch: &mut Scratch,
    act: &mut Activities,
    part: &[u32],
    path: usize,
) -> usize
    requires { Joinable trail.now scratch.old act.old path part.now }
    ensures { Joins trail.now scratch.old scratch.new act.old act.new path result part.now }
{
    let mut path = path;
    for l in part {
        let q = Lit(*l);
        if joins(trail, &scratch.marks, q) {
            path = join_lit(trail, scratch, act, q, path);
        }
    }
    path
}

// The last place of the trail before i whose literal is marked, 0 where there is none: whoever asks knows of one, and would unwrap an Option.
fn last_seen(trail: &Trail, marks: &MarkCells, i: usize) -> usize
    requires i_in_bounds { i ≤ length trail.now.vars.trail }
    requires lits { LitsOf (length marks.now) trail.now.vars.trail }
    ensures { result ≡ last_seen marks.now trail.now.vars.trail i }
{
    // By place: the trail hands out its literals one by one, so there is no iterator to ask for the last place.
    for k in (0..i).rev() {
        if marks.is_set(trail.at(k).var()) {
            return k;
        }
    }
    0
}

// The literal at place i of the trail is resolved with its reason.
fn resolve_at(
    trail: &Trail,
    clauses: &Store,
    scratch: &mut Scratch,
    act: &mut Activities,
    path: usize,
    i: usize,
) -> usize
    requires turning { Turning trail.now clauses.now scratch.old act.old path i }
    requires more { 1 < path }
    ensures { Resolves trail.now clauses.now scratch.old scratch.new act.old act.new path result i }
{
    let v = trail.at(i).var();
    scratch.marks.unset(v);
    let c = trail.reason(v).unwrap();
    join(trail, scratch, act, &clauses.clause(c)[1..], path - 1)
}

// From the false clause back along the trail to the first UIP. Its negation then stands first in the buffer, and the literals below the conflict's
// level behind it.
pub fn first_uip(
    trail: &Trail,
    clauses: &Store,
    scratch: &mut Scratch,
    act: &mut Activities,
    confl: usize,
)
    requires { Conflicted trail.now clauses.now scratch.old act.old confl }
    ensures { Uip trail.now clauses.now scratch.old scratch.new act.old act.new confl }
{
    scratch.buffer.clear();
    // The first place is the UIP's, which is known last; the definition begins with the same literal.
    scratch.buffer.push(Lit::undef());
    let mut path = join(trail, scratch, act, clauses.clause(confl), 0);
    let mut i = trail.assigned();
    while 1 < path {
        i = last_seen(trail, &scratch.marks, i);
        path = resolve_at(trail, clauses, scratch, act, path, i);
    }
    let p = trail.at(last_seen(trail, &scratch.marks, i));
    scratch.marks.unset(p.var());
    scratch.buffer.set(0, p.negate());
}

// The place, from 1 on, of the buffer's literal on the highest level, the first one on a tie.
fn highest(trail: &Trail, buffer: &Lits) -> usize
    requires some { 2 ≤ length buffer.now.items }
    requires lits { LitsOf (length trail.now.vars.values) (drop 1 buffer.now.items) }
    ensures { result ≡ 1 + highest_place trail.now.vars (drop 1 buffer.now.items) }
{
    let mut best = 1;
    // By place, since the place is what is sought; `max_by_key` gives the last on a tie, and the definition takes the first.
    for i in 2..buffer.len() {
        if trail.level(buffer.at(best).var()) < trail.level(buffer.at(i).var()) {
            best = i;
        }
    }
    best
}

// Of the buffer's literals the one on the highest level, but for the first, changes places with the second. The result is its level, 0 where there is none: the level to
// go back to, as the definition has it.
pub fn highest_second(trail: &Trail, buffer: &mut Lits) -> usize
    requires { LitsOf (length trail.now.vars.values) (drop 1 buffer.old.items) }
    ensures { Seconded trail.now buffer.old buffer.new result }
{
    if buffer.len() < 2 {
        return 0;
    }
    let best = highest(trail, buffer);
    let q = buffer.at(best);
    buffer.swap(1, best);
    trail.level(q.var())
}

// The marks of the buffer's literals behind the first are taken back: then no variable is marked.
pub fn unmark_cells(marks: &mut MarkCells, buffer: &Lits)
    requires { MarksOf (length marks.old) marks.old (drop 1 buffer.now.items) }
    ensures { marks.new ≡ replicate (length marks.old) 0 }
{
    for l in buffer.rest() {
        marks.unset(Lit(*l).var());
    }
}

// The same of `Marks`, which lend their cells to nobody: the one above would need them taken out.
pub fn unmark_buffer(marks: &mut Marks, buffer: &Lits)
    requires { MarksOf (length marks.old) marks.old (drop 1 buffer.now.items) }
    ensures { marks.new ≡ replicate (length marks.old) 0 }
{
    for q in buffer.rest() {
        marks.unset(Lit(*q).var());
    }
}

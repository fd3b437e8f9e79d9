// Rule 4: literals of a learnt clause that follow from the others are dropped. As in crate analyze, each function takes of trail, clauses and mask
// what it reads, and a struct of the three would let each read all.
#![tactic(auto)]

ghost use Rattle.std.specs.Prelude.{◌≡◌, ◌<◌, ◌≤◌, length, drop};
ghost use Rattle.model.specs.Lit.{var, abstract_level};
ghost use Rattle.model.specs.Minimise.{abstract_levels};
ghost use Rattle.trail.specs.View.{LitsOf};
ghost use Rattle.minimise.specs.Tracing.{open_lit, traceable, Puttable, put_in};
ghost use Rattle.minimise.specs.Pushing.{Pushable, Pushes};
ghost use Rattle.minimise.specs.Notes.{Noted, Undone};
ghost use Rattle.minimise.specs.Redundant.{Traceable, Tries};
ghost use Rattle.minimise.specs.Dropping.{Judgeable, Judges, Minimising, Shrinks};
ghost use Rattle.minimise.specs.Minimised.{Ready, Minimised};

use clause::Lit;
use scratch::{Lits, MarkCells, Scratch};
use store::Store;
use trail::Trail;

// A level's bit in a mask of 32.
pub fn abstract_level(level: usize) -> u32
    ensures { result ≡ abstract_level level }
{
    1 << (level & 31)
}

// Whether a literal is above level 0 and not marked. Rule 3 asks the same (`joins` of crate analyze, which says why twice).
fn is_open(trail: &Trail, marks: &MarkCells, l: Lit) -> bool
    requires { (var l.0 < length trail.now.vars.values) × (length marks.now ≡ length trail.now.vars.values) }
    ensures { result ≡ open_lit trail.now.vars marks.now l.0 }
{
    trail.level(l.var()) != 0 && !marks.is_set(l.var())
}

// Whether a literal has a reason, on a level of the mask.
fn can_trace(trail: &Trail, mask: u32, l: Lit) -> bool
    requires { var l.0 < length trail.now.vars.values }
    ensures { result ≡ traceable trail.now.vars mask l.0 }
{
    trail.reason(l.var()).is_some() && abstract_level(trail.level(l.var())) & mask != 0
}

// A literal is marked, pushed and noted.
fn put(scratch: &mut Scratch, q: Lit)
    requires { Puttable scratch.old q.0 }
    ensures { scratch.new ≡ put_in scratch.old q.0 }
{
    scratch.marks.set(q.var());
    scratch.stack.push(q);
    scratch.notes.push(q);
}

// The literals of a reason behind the first. One at level 0 or marked is passed over, one that can be traced is marked and pushed, any other ends it: whether none did.
fn push_reason(trail: &Trail, scratch: &mut Scratch, mask: u32, part: &[u32]) -> bool
    requires { Pushable trail.now scratch.old part.now }
    ensures { Pushes trail.now scratch.old scratch.new mask part.now result }
{
    for x in part {
        let l = Lit(*x);
        if is_open(trail, &scratch.marks, l) {
            if !can_trace(trail, mask, l) {
                return false;
            }
            put(scratch, l);
        }
    }
    true
}

// The marks of the notes behind the first n are taken back, the newest first, and these notes go.
fn unmark(marks: &mut MarkCells, notes: &mut Lits, n: usize)
    requires { Noted marks.old notes.old n }
    ensures { Undone marks.old marks.new notes.old notes.new n }
{
    while n < notes.len() {
        let q = notes.pop();
        marks.unset(q.var());
    }
}

// Traces a literal back: its reason's literals, their reasons' literals, and so on, down to marked ones: whether it follows from these.
// Where it does not, the marks are as they were.
fn lit_redundant(trail: &Trail, clauses: &Store, scratch: &mut Scratch, mask: u32, l: Lit) -> bool
    requires { Traceable trail.now clauses.now scratch.old l.0 }
    ensures { Tries trail.now clauses.now scratch.old scratch.new mask l.0 result }
{
    let n = scratch.notes.len();
    scratch.stack.clear();
    scratch.stack.push(l);
    while 0 < scratch.stack.len() {
        let q = scratch.stack.pop();
        let c = trail.reason(q.var()).unwrap();
        if !push_reason(trail, scratch, mask, &clauses.clause(c)[1..]) {
            unmark(&mut scratch.marks, &mut scratch.notes, n);
            return false;
        }
    }
    true
}

// The literals behind the buffer's first are noted, and no others.
fn note_rest(buffer: &Lits, notes: &mut Lits)
    requires { length (drop 1 buffer.now.items) ≤ length notes.old.cells }
    ensures items { notes.new.items ≡ drop 1 buffer.now.items }
    ensures cells { length notes.new.cells ≡ length notes.old.cells }
{
    notes.set_all(buffer.rest());
}

// The levels of the literals behind the buffer's first.
fn abstract_levels(trail: &Trail, buffer: &Lits) -> u32
    requires { LitsOf (length trail.now.vars.values) (drop 1 buffer.now.items) }
    ensures { result ≡ abstract_levels trail.now.vars 0 (drop 1 buffer.now.items) }
{
    let mut mask = 0;
    for l in buffer.rest() {
        mask |= abstract_level(trail.level(Lit(*l).var()));
    }
    mask
}

// Whether a literal goes: it has a reason and follows from the others.
fn is_redundant(trail: &Trail, clauses: &Store, scratch: &mut Scratch, mask: u32, l: Lit) -> bool
    requires { Judgeable trail.now clauses.now scratch.old l.0 }
    ensures { Judges trail.now clauses.now scratch.old scratch.new mask l.0 result }
{
    trail.reason(l.var()).is_some() && lit_redundant(trail, clauses, scratch, mask, l)
}

// The literals behind the buffer's first that do not follow from the others, moved together.
fn drop_redundant(trail: &Trail, clauses: &Store, scratch: &mut Scratch, mask: u32)
    requires { Minimising trail.now clauses.now scratch.old }
    ensures { Shrinks trail.now clauses.now scratch.old scratch.new mask }
{
    let mut kept = 1;
    // By place: the literals kept are written over those that were read.
    for i in 1..scratch.buffer.len() {
        let l = scratch.buffer.at(i);
        if !is_redundant(trail, clauses, scratch, mask, l) {
            scratch.buffer.set(kept, l);
            kept += 1;
        }
    }
    scratch.buffer.truncate(kept);
}

// Mode 2: what is left of the clause in the buffer, with the UIP first. Its marks, but the UIP's, are set; every mark is taken back.
pub fn minimise(trail: &Trail, clauses: &Store, scratch: &mut Scratch)
    requires { Ready trail.now clauses.now scratch.old }
    ensures { Minimised trail.now clauses.now scratch.old scratch.new }
{
    let mask = abstract_levels(trail, &scratch.buffer);
    note_rest(&scratch.buffer, &mut scratch.notes);
    drop_redundant(trail, clauses, scratch, mask);
    unmark(&mut scratch.marks, &mut scratch.notes, 0);
}

// Rule 1: taking a clause.
#![tactic(auto)]

ghost use Rattle.std.specs.Prelude.{◌≡◌, ◌*◌, ◌≤◌, ◌<◌, length};
ghost use Rattle.model.specs.Intake.{add_clause};
ghost use Rattle.model.specs.State.{decision_level};
ghost use Rattle.lawbase.specs.Basics.{Every};
ghost use Rattle.state.specs.Still.{Still, Has, config_of, state_at};
ghost use Rattle.intake.specs.Sorting.{Sorts};
ghost use Rattle.intake.specs.Simplifying.{Judgeable, Turned, Simplifiable, Simplified};
ghost use Rattle.intake.specs.Storing.{Storing, Pushing, Storable, Added};
ghost use Rattle.intake.specs.Taking.{Takeable, Took, answer_of};

use clause::{Lit, Value};
use scratch::Lits;
use state::State;
use store::Store;
use trail::Trail;

// The buffer's literals are those of the next clause.
fn push_buffer(clauses: &mut Store, buffer: &Lits)
    requires { Storing clauses.old buffer.now }
    ensures { Pushing clauses.old clauses.new buffer.now.items }
{
    for l in buffer.items() {
        clauses.push(Lit(*l));
    }
}

// The buffer's literals become the next stored clause, with its two watches.
pub fn store_buffer(s: &mut State)
    requires { Storable s.old }
    ensures { Added s.old s.new }
{
    push_buffer(&mut s.clauses, &s.scratch.buffer);
    s.store_pushed();
}

// The literals of the part, sorted, are the buffer's.
fn sort_in(buffer: &mut Lits, part: &[u32])
    requires { length part.now ≤ length buffer.old.cells }
    ensures { Sorts buffer.old buffer.new part.now }
{
    buffer.set_sorted(part);
}

// What a literal does to the clause: it drops the clause, is left out, or is kept.
#[derive(Clone, Copy, Debug, PartialEq, Eq)]
enum Turn {
    Drops,
    Goes,
    Stays,
}

// A literal drops the clause where it is true, or the one kept last is its negation; it goes where it is false, or kept already.
fn judge(trail: &Trail, l: Lit, last: Lit) -> Turn
    requires { Judgeable trail.now l.0 }
    ensures { Turned trail.now l.0 last.0 result }
{
    let v = trail.lit_value(l);
    if v == Value::True || l == last.negate() {
        return Turn::Drops;
    }
    if v == Value::False || l == last {
        return Turn::Goes;
    }
    Turn::Stays
}

// What is left of the buffer's sorted literals; the clause is dropped, and the result false, where one is true or both signs of a variable are there. No Option
// of what is left: that is the buffer, which is lent.
fn simplify(trail: &Trail, buffer: &mut Lits) -> bool
    requires { Simplifiable trail.now buffer.old }
    ensures { Simplified trail.now buffer.old buffer.new result }
{
    // None is kept yet: the definition's literal for none. An Option would be one case more in both tests of `judge`.
    let mut last = Lit::undef();
    let mut kept = 0;
    // By place: the literals kept are written over those that were read.
    for i in 0..buffer.len() {
        let l = buffer.at(i);
        match judge(trail, l, last) {
            Turn::Drops => return false,
            Turn::Goes => (),
            Turn::Stays => {
                buffer.set(kept, l);
                kept += 1;
                last = l;
            }
        }
    }
    buffer.truncate(kept);
    true
}

// The answer to a clause: there is no model any more, it is taken, there is no storage. Its cell holds its place in this list.
#[derive(Clone, Copy, Debug, PartialEq, Eq)]
pub enum Answer {
    NoModel,
    Taken,
    NoStorage,
}

// The buffer's literals, those kept of a clause, are taken.
fn take_kept(s: &mut State) -> Answer
    requires { Takeable s.old }
    ensures { Took s.old s.new result }
{
    let n = s.scratch.buffer.len();
    if n == 0 {
        s.ok = false;
        return Answer::NoModel;
    }
    if n == 1 {
        s.trail.enqueue(s.scratch.buffer.at(0), None);
        return Answer::Taken;
    }
    if !s.clauses.has_room(n) {
        return Answer::NoStorage;
    }
    store_buffer(s);
    Answer::Taken
}

// A clause is taken, at level 0.
pub fn add_clause(s: &mut State, part: &[u32]) -> Answer
    requires still { Still s.old }
    requires level { decision_level s.old.trail.vars ≡ 0 }
    requires literals { Every (λ x. x < 2 * s.old.config.vars) part.now }
    requires short { length part.now ≤ 2 * s.old.config.vars }
    ensures has { Has s.new (add_clause (config_of s.old.config) (state_at s.old) part.now).state }
    ensures answer { answer_of result ≡ (add_clause (config_of s.old.config) (state_at s.old) part.now).answer }
    ensures config { s.new.config ≡ s.old.config }
{
    if !s.ok {
        return Answer::NoModel;
    }
    sort_in(&mut s.scratch.buffer, part);
    if !simplify(&s.trail, &mut s.scratch.buffer) {
        return Answer::Taken;
    }
    take_kept(s)
}

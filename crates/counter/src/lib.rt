// 'At most k of these n literals' by Sinz's sequential counter: the clauses written as records of kind 1 into a lent slice.
#![tactic(auto)]

ghost use Rattle.std.specs.Prelude.{◌≡◌, ◌+◌, ◌*◌, ◌-◌, ◌≤◌, ◌<◌, length};
ghost use Rattle.counter.specs.Counter.{at_most, len_of};
ghost use Rattle.model.specs.Limits.{max_variables};
ghost use Rattle.counter.specs.Wrote.{Wrote, Fits};
ghost use Rattle.counter.specs.Answers.{Writes};

mod clauses;
mod judge;

use clauses::Writer;
use refusal::Refusal;

// The literals of a call are 1 to this.
const MAX_COUNT: usize = 64;

// How many cells are written, of n literals; 0 for more literals than a call may have, since C takes no Option.
pub fn len(n: u32, k: u32) -> u64
    ensures { result ≡ len_of n k }
{
    if MAX_COUNT < n as usize {
        return 0;
    }
    if k == 0 {
        return 3 * u64::from(n);
    }
    if n <= k {
        return 0;
    }
    8 + 3 * (u64::from(k) - 1) + (u64::from(n) - 2) * (9 * u64::from(k) + 3)
}

// The clauses that say that at most k of the literals are true.
fn write(w: &mut Writer, literals: &[u32], k: u32, first: u32)
    requires helpers { 1 ≤ k → k < length literals.now → first + (length literals.now - 1) * k ≤ max_variables }
    requires fits { Fits w.old.at (at_most k first literals.now) (length w.old.out.now) }
    ensures same_reference { w.new.out.ghost_name ≡ w.old.out.ghost_name }
    ensures wrote { Wrote w.old.out.now w.old.at (at_most k first literals.now) w.new.out.now w.new.at }
{
    if k == 0 {
        clauses::negations(w, literals)
    } else if (k as usize) < literals.len() {
        clauses::counter(w, literals, first, k)
    }
}

// Writes the clauses that say that at most k of the literals are true, with helpers from variable first on.
// Returns how many cells they take, or says why the call is turned back.
pub fn at_most(
    v: u32,
    literals: &[u32],
    k: u32,
    first: u32,
    out: &mut [u32],
) -> Result<u64, Refusal>
    ensures { Writes v literals.now k first out.old result out.new }
{
    judge::judge(v, literals, k, first, out.len())?;
    let mut w = Writer { out, at: 0 };
    write(&mut w, literals, k, first);
    Ok(w.at as u64)
}

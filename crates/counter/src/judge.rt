// What is turned back: refusals 2, 18, 19 and 20.
ghost use Rattle.std.specs.Prelude.{◌≡◌, ◌++◌, ◌+◌, ◌≤◌, ◌<◌, length};
ghost use Rattle.model.specs.Book.{all, in_range_of};
ghost use Rattle.script.specs.Judging.{Judged};
ghost use Rattle.counter.specs.Counter.{helpers, max_count, max_helpers, named, distinct, apart, helpers_fit, at_most_rows};
ghost use Rattle.counter.specs.Rows.{call_rows, name_rows, room_rows};

use crate::{MAX_COUNT, len};
use refusal::{Refusal, Rule};
use script::{MAX_VARIABLES, check, from_one};

// Each is a literal of v variables.
fn in_range(v: u32, literals: &[u32]) -> bool
    ensures { result ≡ all (in_range_of v) literals.now }
{
    literals.iter().all(|l| l / 2 < v)
}

// The variable of l is named among the literals.
fn is_named(l: u32, literals: &[u32]) -> bool
    ensures { result ≡ named l literals.now }
{
    literals.iter().any(|m| m / 2 == l / 2)
}

// No two name the same variable.
fn distinct(literals: &[u32]) -> bool
    ensures { result ≡ distinct literals.now }
{
    let mut left = literals;
    while let [l, others @ ..] = left {
        if is_named(*l, others) {
            return false;
        }
        left = others;
    }
    true
}

// How many helpers are in use, for n literals.
fn helpers(k: u32, n: usize) -> usize
    requires { n ≤ max_count }
    ensures { result ≡ helpers k n }
{
    let k = k as usize;
    if k < n { (n - 1) * k } else { 0 }
}

// The literal's variable is none of the `used` helpers from first on. Here and below first and used stand apart, and used is at most so many that
// their sum fits: a struct of them would ask the same where it is made.
fn is_apart(first: u32, used: usize, l: u32) -> bool
    requires { used ≤ max_helpers }
    ensures { result ≡ apart first used l }
{
    let x = l / 2;
    x < first || first as usize + used <= x as usize
}

fn all_apart(first: u32, used: usize, literals: &[u32]) -> bool
    requires { used ≤ max_helpers }
    ensures { result ≡ all (apart first used) literals.now }
{
    literals.iter().all(|l| is_apart(first, used, *l))
}

// The helpers in use, if any, are among v variables.
fn helpers_fit(v: u32, first: u32, used: usize) -> bool
    requires { used ≤ max_helpers }
    ensures { result ≡ helpers_fit v first used }
{
    used == 0 || first as usize + used <= v as usize
}

// Rows 2 and 18.
fn judge_call(v: u32, literals: &[u32]) -> Result<(), Refusal>
    ensures { Judged result (call_rows v literals.now) }
{
    check(
        from_one(v as usize, MAX_VARIABLES as usize),
        Rule::BadVariables,
        0,
    )?;
    check(from_one(literals.len(), MAX_COUNT), Rule::BadCounted, 0)?;
    check(in_range(v, literals), Rule::BadCounted, 0)
}

// Rows 19.
fn judge_names(v: u32, literals: &[u32], k: u32, first: u32) -> Result<(), Refusal>
    requires { length literals.now ≤ max_count }
    ensures { Judged result (name_rows v literals.now k first) }
{
    let used = helpers(k, literals.len());
    check(distinct(literals), Rule::SharedVariable, 0)?;
    check(all_apart(first, used, literals), Rule::SharedVariable, 0)?;
    check(helpers_fit(v, first, used), Rule::SharedVariable, 0)
}

// Row 20.
fn judge_room(literals: &[u32], k: u32, first: u32, room: usize) -> Result<(), Refusal>
    requires { length literals.now ≤ max_count }
    ensures { Judged result (room_rows literals.now k first room) }
{
    let need = len(literals.len() as u32, k);
    check(need <= room as u64, Rule::ShortClauses, need)
}

// The first row that does not hold, or none. The call's numbers stand apart, as C gives them.
pub fn judge(v: u32, literals: &[u32], k: u32, first: u32, room: usize) -> Result<(), Refusal>
    ensures { Judged result (at_most_rows v literals.now k first room) }
{
    judge_call(v, literals)?;
    judge_names(v, literals, k, first)?;
    judge_room(literals, k, first, room)
}

// Cells written into out: any cells, and a solve's answer. Here and above, what writes an answer gives back how many cells:
// out is lent, and C asks for the count.
#![tactic(auto)]

ghost use Rattle.std.specs.Prelude.{◌≡◌, [], ◌∷◌, ◌+◌, ◌≤◌, length};
ghost use Rattle.model.specs.Search.{cells};
ghost use Rattle.std.proofs.Math.Seq.{paste};
ghost use Rattle.model.specs.Lit.{l_undef};
ghost use Rattle.cells.specs.Number.{verdict_cell, verdict_of, cause_cell};

// A solve's first cell. No `clause::Value`, which is a variable's: so neither is taken for the other. `search::Status` has an end more, which is UNDEF here.
#[derive(Clone, Copy, Debug, PartialEq, Eq)]
pub enum Verdict {
    True = 0,
    False = 1,
    Undef = 2,
}

impl Verdict {
    // The verdict of a first cell; a number over 2 is none's. An Option and no `TryFrom`, since no error is told.
    pub fn from_cell(cell: u32) -> Option<Verdict>
        ensures { result ≡ verdict_of cell }
    {
        match cell {
            0 => Some(Verdict::True),
            1 => Some(Verdict::False),
            2 => Some(Verdict::Undef),
            _ => None,
        }
    }
}

// Why a solve was stopped: the cell behind the count of UNDEF.
#[derive(Clone, Copy, Debug, PartialEq, Eq)]
pub enum Cause {
    Budget = 1,
    Storage = 2,
}

// The cells of `from` go to out, from `at` on: `put_solve` and counter's `Writer` have cells before them.
pub fn put(out: &mut [u32], at: usize, from: &[u32])
    requires { at + length from.now ≤ length out.old }
    ensures { out.new ≡ paste out.old at from.now (length from.now) }
{
    // Cell by cell: `copy_from_slice` is a call of C's memmove, which include/engine.h does not ask for, and took three times as long for the few cells of a clause.
    for i in 0..from.len() {
        out[at + i] = from[i];
    }
}

// A solve's answer, its conflicts, and the cells behind the count, from the start of out on; the result is how many cells.
// The answer is any number, as this function always took it; `put_verdict` takes a verdict.
pub fn put_solve(out: &mut [u32], answer: u32, conflicts: u32, body: &[u32]) -> usize
    requires body_in_bounds { 3 + length body.now ≤ length out.old }
    requires body_len_bound { length body.now ≤ 4294967295 }
    ensures { (out.new ≡ paste out.old 0 (cells answer conflicts body.now) (3 + length body.now)) × (result ≡ 3 + length body.now) }
{
    out[0] = answer;
    out[1] = conflicts;
    out[2] = body.len() as u32;
    put(out, 3, body);
    3 + body.len()
}

// The same of a verdict.
pub fn put_verdict(out: &mut [u32], verdict: Verdict, conflicts: u32, body: &[u32]) -> usize
    requires body_in_bounds { 3 + length body.now ≤ length out.old }
    requires body_len_bound { length body.now ≤ 4294967295 }
    ensures { (out.new ≡ paste out.old 0 (cells (verdict_cell verdict) conflicts body.now) (3 + length body.now)) × (result ≡ 3 + length body.now) }
{
    put_solve(out, verdict as u32, conflicts, body)
}

// A stopped solve: the number of its cause, which may be any; `put_cause` takes a cause.
pub fn put_stopped(out: &mut [u32], conflicts: u32, cause: u32) -> usize
    requires { 4 ≤ length out.old }
    ensures { (out.new ≡ paste out.old 0 (cells l_undef conflicts (cause ∷ [])) 4) × (result ≡ 4) }
{
    put_verdict(out, Verdict::Undef, conflicts, &[cause])
}

// The same of a cause.
pub fn put_cause(out: &mut [u32], conflicts: u32, cause: Cause) -> usize
    requires { 4 ≤ length out.old }
    ensures { (out.new ≡ paste out.old 0 (cells l_undef conflicts (cause_cell cause ∷ [])) 4) × (result ≡ 4) }
{
    put_stopped(out, conflicts, cause as u32)
}

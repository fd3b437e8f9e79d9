// The clauses, written as records of kind 1.
ghost use Rattle.std.specs.Prelude.{◌≡◌, [], ◌∷◌, ◌+◌, ◌*◌, ◌-◌, ◌≤◌, ◌<◌, length};
ghost use Rattle.model.specs.Lit.{neg};
ghost use Rattle.model.specs.Limits.{max_variables};
ghost use Rattle.counter.specs.Counter.{helper, columns, pair, stop, next_row, rows, zeros, counter, negations};
ghost use Rattle.counter.specs.Wrote.{Wrote, Fits};

use clause::Lit;
use script::Kind;

// A lent slice, and how many of its cells are written. That what is to come fits (`Fits`) is no invariant: it depends on what is to come,
// and it bounds `at` too. `same_reference` (it still lends the same slice) stands beside `Wrote`, which is of two slices and knows no writer.
#[derive(Drop)]
pub struct Writer<'a> {
    pub out: &'a mut [u32],
    pub at: usize,
}

impl Writer<'_> {
    // A clause as a record of kind 1. Crates smallbooks and text write one too, to a vector and to the rest of a slice that may be short: no one function does all.
    fn put(&mut self, c: &[u32])
        requires c_in_bounds { self.old.at + 2 + length c.now ≤ length self.old.out.now }
        requires c_len_bound { length c.now ≤ 3 }
        ensures same_reference { self.new.out.ghost_name ≡ self.old.out.ghost_name }
        ensures wrote { Wrote self.old.out.now self.old.at (c.now ∷ []) self.new.out.now self.new.at }
    {
        self.out[self.at] = Kind::Clause as u32;
        self.out[self.at + 1] = c.len() as u32;
        cells::put(self.out, self.at + 2, c);
        self.at += 2 + c.len();
    }
}

fn negate(l: u32) -> u32
    ensures { result ≡ neg l }
{
    Lit(l).negate().0
}

// ---- the clauses

// Column j of the row of helpers that begins with variable base.
fn helper(base: u32, j: u32) -> u32
    requires { base + j < max_variables }
    ensures { result ≡ helper base j }
{
    2 * (base + j)
}

// The negations as units.
pub fn negations(w: &mut Writer, literals: &[u32])
    requires { Fits w.old.at (negations literals.now) (length w.old.out.now) }
    ensures same_reference { w.new.out.ghost_name ≡ w.old.out.ghost_name }
    ensures wrote { Wrote w.old.out.now w.old.at (negations literals.now) w.new.out.now w.new.at }
{
    for l in literals {
        w.put(&[negate(*l)]);
    }
}

// The columns behind the first of the row at base are false. Here and below `base` and `k` are two numbers and no row: k is the call's and stays,
// the base goes on, and the bounds of each function are its own.
fn zeros(w: &mut Writer, base: u32, k: u32)
    requires k_bound { base + k ≤ max_variables }
    requires fits { Fits w.old.at (zeros base 0 (k - 1)) (length w.old.out.now) }
    ensures same_reference { w.new.out.ghost_name ≡ w.old.out.ghost_name }
    ensures wrote { Wrote w.old.out.now w.old.at (zeros base 0 (k - 1)) w.new.out.now w.new.at }
{
    for j in 1..k {
        w.put(&[negate(helper(base, j))]);
    }
}

// The two clauses of column j + 1 of the row behind the one at base.
fn column(w: &mut Writer, x: u32, base: u32, k: u32, j: u32)
    requires j_bound { base + k + (j + 1) < max_variables }
    requires fits { Fits w.old.at (pair x base (base + k) j) (length w.old.out.now) }
    ensures same_reference { w.new.out.ghost_name ≡ w.old.out.ghost_name }
    ensures wrote { Wrote w.old.out.now w.old.at (pair x base (base + k) j) w.new.out.now w.new.at }
{
    let h = helper(base + k, j + 1);
    w.put(&[negate(x), negate(helper(base, j)), h]);
    w.put(&[negate(helper(base, j + 1)), h]);
}

// The columns behind the first of the row behind the one at base.
fn columns(w: &mut Writer, x: u32, base: u32, k: u32)
    requires k_bound { base + k + k ≤ max_variables }
    requires fits { Fits w.old.at (columns x base (base + k) 0 (k - 1)) (length w.old.out.now) }
    ensures same_reference { w.new.out.ghost_name ≡ w.old.out.ghost_name }
    ensures wrote { Wrote w.old.out.now w.old.at (columns x base (base + k) 0 (k - 1)) w.new.out.now w.new.at }
{
    for j in 1..k {
        column(w, x, base, k, j - 1);
    }
}

// With k of the literals before it true, x is false.
fn stop(w: &mut Writer, x: u32, base: u32, k: u32)
    requires le_k { (1 ≤ k) × (base + k ≤ max_variables) }
    requires fits { Fits w.old.at (stop k x base ∷ []) (length w.old.out.now) }
    ensures same_reference { w.new.out.ghost_name ≡ w.old.out.ghost_name }
    ensures wrote { Wrote w.old.out.now w.old.at (stop k x base ∷ []) w.new.out.now w.new.at }
{
    w.put(&[negate(x), negate(helper(base, k - 1))]);
}

// The row behind the one at base, for the literal x.
fn next_row(w: &mut Writer, x: u32, base: u32, k: u32)
    requires le_k { (1 ≤ k) × (base + k + k ≤ max_variables) }
    requires fits { Fits w.old.at (next_row k x base) (length w.old.out.now) }
    ensures same_reference { w.new.out.ghost_name ≡ w.old.out.ghost_name }
    ensures wrote { Wrote w.old.out.now w.old.at (next_row k x base) w.new.out.now w.new.at }
{
    let h = helper(base + k, 0);
    w.put(&[negate(x), h]);
    w.put(&[negate(helper(base, 0)), h]);
    columns(w, x, base, k);
    stop(w, x, base, k);
}

// The rows of the literals behind the first, and the last one's clause.
fn rows(w: &mut Writer, literals: &[u32], first: u32, k: u32)
    requires le_k { (1 ≤ k) × (1 ≤ length literals.now) }
    requires k_bound { first + length literals.now * k ≤ max_variables }
    requires fits { Fits w.old.at (rows k first literals.now) (length w.old.out.now) }
    ensures same_reference { w.new.out.ghost_name ≡ w.old.out.ghost_name }
    ensures wrote { Wrote w.old.out.now w.old.at (rows k first literals.now) w.new.out.now w.new.at }
{
    let last = literals.len() - 1;
    // The base of each literal's row goes on by k: a `zip` with `step_by` would say the same less plainly.
    let mut base = first;
    for l in &literals[..last] {
        next_row(w, *l, base, k);
        base += k;
    }
    stop(w, literals[last], base, k);
}

// Sinz's formula.
pub fn counter(w: &mut Writer, literals: &[u32], first: u32, k: u32)
    requires le_k { (1 ≤ k) × (k < length literals.now) }
    requires k_bound { first + (length literals.now - 1) * k ≤ max_variables }
    requires fits { Fits w.old.at (counter k first literals.now) (length w.old.out.now) }
    ensures same_reference { w.new.out.ghost_name ≡ w.old.out.ghost_name }
    ensures wrote { Wrote w.old.out.now w.old.at (counter k first literals.now) w.new.out.now w.new.at }
{
    w.put(&[negate(literals[0]), helper(first, 0)]);
    zeros(w, first, k);
    rows(w, &literals[1..], first, k);
}

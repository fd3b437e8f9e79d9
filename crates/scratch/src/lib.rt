// What conflict analysis and intake write beside the state: a mark by variable, a buffer for a clause, a stack of literals to trace, and the literals
// whose marks are to be taken back.
#![tactic(auto)]

ghost use Rattle.std.specs.Prelude.{◌≡◌, ◌*◌, ◌≤◌, ◌<◌, [], ◌∷◌, ◌++◌, eqb, length, get_or, set, take, drop, replicate, reverse};
ghost use Rattle.std.specs.List.Sorted.{IsPermutation, IsNonDecreasing};
ghost use Rattle.scratch.specs.Marks.{SoundMarks};
ghost use Rattle.scratch.specs.Row.{Sound, row, pushed, put, exchanged, filled};

use clause::{Lit, Var};
use std::marker::Model;

// A mark by variable: 1 where it is set. Cells and not bools: they are lent as numbers, and the rules read a mark as a cell, which may hold any number.
// That a variable has a mark is asked where it is used, as in crate trail.
#[derive(Drop)]
pub struct MarkCells<'a> {
    cells: &'a mut [u32],
}

impl<'a> Model for MarkCells<'a> {
    ghost use Rattle.std.specs.Prelude.{ℕ, List};

    ghost Value = { List ℕ };

    ghost view = { λ m. m.cells.now };
}

impl<'a> MarkCells<'a> {
    // No mark is set, whatever the slice held.
    pub fn new(cells: &'a mut [u32]) -> MarkCells<'a>
        ensures { result ≡ replicate (length cells.old) 0 }
    {
        cells.fill(0);
        MarkCells::from_cells(cells)
    }

    // Marks as they are found, whatever they are.
    pub fn from_cells(cells: &'a mut [u32]) -> MarkCells<'a>
        ensures { result ≡ cells.old }
    {
        MarkCells { cells }
    }

    // The marks as they are now, in the caller's slice again.
    pub fn into_cells(self) -> &'a mut [u32]
        ensures { result.now ≡ self.entry }
    {
        let MarkCells { cells } = self;
        cells
    }

    // The number that stands as the mark of v.
    pub fn at(&self, v: Var) -> u32
        requires { v.0 < length self.now }
        ensures { result ≡ get_or self.now v.0 0 }
    {
        let i = v.0 as usize;
        self.cells[i]
    }

    // Any number as the mark of v.
    pub fn put(&mut self, v: Var, x: u32)
        requires { v.0 < length self.old }
        ensures { self.new ≡ set self.old v.0 x }
    {
        self.cells[v.0 as usize] = x;
    }

    pub fn is_set(&self, v: Var) -> bool
        requires { v.0 < length self.now }
        ensures { result ≡ eqb (get_or self.now v.0 0) 1 }
    {
        self.cells[v.0 as usize] == 1
    }

    // `set` and `unset`, and no function that takes 0 or 1: each call says which. The rules call these alone, so a mark of theirs is 0 or 1.
    pub fn set(&mut self, v: Var)
        requires { v.0 < length self.old }
        ensures { self.new ≡ set self.old v.0 1 }
    {
        self.cells[v.0 as usize] = 1;
    }

    pub fn unset(&mut self, v: Var)
        requires { v.0 < length self.old }
        ensures { self.new ≡ set self.old v.0 0 }
    {
        self.cells[v.0 as usize] = 0;
    }
}

// Marks that are 0 or 1, whoever made them: `MarkCells` without `put`.
#[derive(Drop)]
pub struct Marks<'a> {
    cells: MarkCells<'a>,
}

impl<'a> Model for Marks<'a> {
    ghost use Rattle.std.specs.Prelude.{ℕ, List};

    ghost Value = { List ℕ };

    ghost view = { λ m. m.cells };

    ghost use Rattle.scratch.specs.Marks.{SoundMarks};

    ghost invariant = { λ m. SoundMarks m.cells };
}

impl<'a> Marks<'a> {
    // No mark is set, whatever the slice held.
    pub fn new(cells: &'a mut [u32]) -> Marks<'a>
        ensures { result ≡ replicate (length cells.old) 0 }
    {
        Marks {
            cells: MarkCells::new(cells),
        }
    }

    // Marks from elsewhere, each 0 or 1, as those of a `Scratch` that the rules alone have marked.
    pub fn of(cells: MarkCells<'a>) -> Marks<'a>
        requires { SoundMarks cells }
        ensures { result ≡ cells.entry }
    {
        Marks { cells }
    }

    // The marks again, for a caller that puts any number.
    pub fn into_mark_cells(self) -> MarkCells<'a>
        ensures is { result ≡ self.entry }
        ensures sound { SoundMarks self.entry }
    {
        let Marks { cells } = self;
        cells
    }

    // What is true of all marks, for a caller's proof.
    pub fn sound(&self)
        ensures { SoundMarks self.now }
    {
        let _ = &self.cells;
    }

    pub fn is_set(&self, v: Var) -> bool
        requires { v.0 < length self.now }
        ensures { result ≡ eqb (get_or self.now v.0 0) 1 }
    {
        self.cells.is_set(v)
    }

    pub fn set(&mut self, v: Var)
        requires { v.0 < length self.old }
        ensures { self.new ≡ set self.old v.0 1 }
    {
        self.cells.set(v);
    }

    pub fn unset(&mut self, v: Var)
        requires { v.0 < length self.old }
        ensures { self.new ≡ set self.old v.0 0 }
    {
        self.cells.unset(v);
    }
}

// A list of literals in cells that are lent, as many as they have room for: there is no heap for a Vec. Past its end only `cell` reads.
#[derive(Drop)]
pub struct Lits<'a> {
    cells: &'a mut [u32],
    len: usize,
}

impl<'a> Model for Lits<'a> {
    ghost use Rattle.std.specs.Prelude.{◌≤◌, length};
    ghost use Rattle.scratch.specs.Row.{Row, row};

    ghost Value = { Row };

    ghost view = { λ l. row l.len l.cells.now };

    ghost invariant = { λ l. l.len ≤ length l.cells.now };
}

impl<'a> Lits<'a> {
    // The empty list. The cells stay as they are.
    pub fn new(cells: &'a mut [u32]) -> Lits<'a>
        ensures { result ≡ row 0 cells.old }
    {
        Lits { cells, len: 0 }
    }

    // A list as it is found, in the first cells.
    pub fn from_parts(cells: &'a mut [u32], len: usize) -> Lits<'a>
        requires { len ≤ length cells.old }
        ensures { result ≡ row len cells.old }
    {
        Lits { cells, len }
    }

    // Every cell as it is now, in the caller's slice again, and how many of them are the list.
    pub fn into_parts(self) -> (&'a mut [u32], usize)
        ensures cells { result.0.now ≡ self.entry.cells }
        ensures len { result.1 ≡ length self.entry.items }
        ensures sound { Sound self.entry }
    {
        let Lits { cells, len } = self;
        (cells, len)
    }

    // What is true of every list, for a caller's proof. Each block with such a fact has such a method: a trait of them would have the same lines in each `impl`, and its fact besides.
    pub fn sound(&self)
        ensures { Sound self.now }
    {
        let _ = &self.cells;
    }

    pub fn len(&self) -> usize
        ensures { result ≡ length self.now.items }
    {
        self.len
    }

    pub fn items(&self) -> &[u32]
        ensures { result.now ≡ self.now.items }
    {
        &self.cells[..self.len]
    }

    // The literals behind the first.
    pub fn rest(&self) -> &[u32]
        ensures { result.now ≡ drop 1 self.now.items }
    {
        self.items().get(1..).unwrap_or(&[])
    }

    pub fn at(&self, k: usize) -> Lit
        requires { k < length self.now.items }
        ensures { result.0 ≡ get_or self.now.items k 0 }
    {
        Lit(self.items()[k])
    }

    pub fn set(&mut self, k: usize, p: Lit)
        requires { k < length self.old.items }
        ensures { self.new ≡ put self.old k p.0 }
    {
        // Named first, so that the check of the index knows the slice's length.
        let cells = &mut self.cells;
        cells[k] = p.0;
    }

    // What cell k holds, past the list's end too.
    pub fn cell(&self, k: usize) -> Lit
        requires { k < length self.now.cells }
        ensures { result.0 ≡ get_or self.now.cells k 0 }
    {
        let cells = &self.cells;
        Lit(cells[k])
    }

    // A literal into cell k, past the list's end too: there the list stays as it was.
    pub fn set_cell(&mut self, k: usize, p: Lit)
        requires { k < length self.old.cells }
        ensures { self.new ≡ put self.old k p.0 }
    {
        let cells = &mut self.cells;
        let x = p.0;
        cells[k] = x;
    }

    // Literals i and j change places.
    pub fn swap(&mut self, i: usize, j: usize)
        requires i_in_bounds { i < length self.old.items }
        requires j_in_bounds { j < length self.old.items }
        ensures { self.new ≡ exchanged self.old i j }
    {
        self.cells.swap(i, j);
    }

    pub fn push(&mut self, p: Lit)
        requires { length self.old.items < length self.old.cells }
        ensures { self.new ≡ pushed self.old p.0 }
    {
        self.cells[self.len] = p.0;
        self.len += 1;
    }

    // The literals of a slice, and no others.
    pub fn set_all(&mut self, part: &[u32])
        requires { length part.now ≤ length self.old.cells }
        ensures { self.new ≡ filled self.old part.now }
    {
        put_front(self.cells, part);
        self.len = part.len();
    }

    // The literals of a slice, going up.
    pub fn set_sorted(&mut self, part: &[u32])
        requires { length part.now ≤ length self.old.cells }
        ensures moved { IsPermutation part.now self.new.items }
        ensures sorted { IsNonDecreasing self.new.items }
        ensures cells { length self.new.cells ≡ length self.old.cells }
        ensures behind { drop (length part.now) self.new.cells ≡ drop (length part.now) self.old.cells }
    {
        let n = part.len();
        lay(self.cells, part);
        self.len = n;
        self.sort();
    }

    // Takes the last literal off. No Option: whoever asks knows that there is one.
    pub fn pop(&mut self) -> Lit
        requires { 0 < length self.old.items }
        ensures items { self.old.items ≡ self.new.items ++ result.0 ∷ [] }
        ensures cells { self.new.cells ≡ self.old.cells }
    {
        self.len -= 1;
        Lit(self.cells[self.len])
    }

    // Keeps the first n literals.
    pub fn truncate(&mut self, n: usize)
        ensures { self.new ≡ record self.old { items = take n self.old.items } }
    {
        self.len = self.len.min(n);
    }

    pub fn clear(&mut self)
        ensures { self.new ≡ record self.old { items = [] } }
    {
        self.len = 0;
    }

    // The literals go up.
    pub fn sort(&mut self)
        ensures moved { IsPermutation self.old.items self.new.items }
        ensures sorted { IsNonDecreasing self.new.items }
        ensures cells { length self.new.cells ≡ length self.old.cells }
        ensures behind { drop (length self.old.items) self.new.cells ≡ drop (length self.old.items) self.old.cells }
    {
        put_in_order(&mut self.cells[..self.len]);
    }
}

// Of so few, turning them round before the library sorts them saves nothing.
const FEW: usize = 4;

// So many it sorts by putting each to its place among those before it, as `settle` would.
const SHORT: usize = 20;

// The element at i goes down to its place among those before it, by no more than `most` exchanges; the result is how many are left.
fn sink(list: &mut [u32], i: usize, most: usize) -> usize
    requires { i < length list.old }
    ensures { IsPermutation list.old list.new }
{
    let mut j = i;
    let mut left = most;
    while 0 < j && 0 < left && list[j] < list[j - 1] {
        list.swap(j, j - 1);
        j -= 1;
        left -= 1;
    }
    left
}

// Puts a list that goes down, or is nearly in order, into order, by no more exchanges than it has elements: such lists the library sorts slowly, and clauses are written so.
fn settle(list: &mut [u32])
    ensures { IsPermutation list.old list.new }
{
    let n = list.len();
    if FEW < n && list[n - 1] < list[0] {
        list.reverse();
    }
    if n <= SHORT {
        return;
    }
    let mut left = n;
    for i in 1..n {
        left = sink(list, i, left);
        if left == 0 {
            return;
        }
    }
}

fn put_in_order(list: &mut [u32])
    ensures moved { IsPermutation list.old list.new }
    ensures sorted { IsNonDecreasing list.new }
{
    settle(list);
    list.sort_unstable();
}

// The first cells become those of the part: what `cells::put` does, in a crate that knows no answers.
fn put_front(cells: &mut [u32], part: &[u32])
    requires { length part.now ≤ length cells.old }
    ensures { cells.new ≡ part.now ++ drop (length part.now) cells.old }
{
    // Cell by cell: `copy_from_slice` is a call of C's memmove, which include/engine.h does not ask for.
    for i in 0..part.len() {
        cells[i] = part[i];
    }
}

// The first cells become those of the part, the last one first.
fn put_turned(cells: &mut [u32], part: &[u32])
    requires { length part.now ≤ length cells.old }
    ensures { cells.new ≡ reverse part.now ++ drop (length part.now) cells.old }
{
    let n = part.len();
    for i in 0..n {
        cells[i] = part[n - 1 - i];
    }
}

// The first cells become those of the part, turned round where it goes down: then there is less to put in order.
fn lay(cells: &mut [u32], part: &[u32])
    requires { length part.now ≤ length cells.old }
    ensures laid { IsPermutation part.now (take (length part.now) cells.new) }
    ensures size { length cells.new ≡ length cells.old }
    ensures behind { drop (length part.now) cells.new ≡ drop (length part.now) cells.old }
{
    let n = part.len();
    if n <= FEW || part[0] <= part[n - 1] {
        put_front(cells, part);
        return;
    }
    put_turned(cells, part);
}

// Four parts of one slice that is lent: there is no heap.
#[derive(Drop)]
pub struct Scratch<'a> {
    pub marks: MarkCells<'a>,
    // A clause under way.
    pub buffer: Lits<'a>,
    // Literals to trace.
    pub stack: Lits<'a>,
    // Literals whose marks are to be taken back.
    pub notes: Lits<'a>,
}

impl<'a> Scratch<'a> {
    // No variable is marked and the lists are empty, whatever the slice held.
    pub fn new(cells: &'a mut [u32], vars: usize) -> Scratch<'a>
        requires { 5 * vars ≤ length cells.old }
        ensures marks { result.marks ≡ replicate vars 0 }
        ensures buffer { result.buffer ≡ row 0 (take (2 * vars) (drop vars cells.old)) }
        ensures stack { result.stack ≡ row 0 (take vars (drop (3 * vars) cells.old)) }
        ensures notes { result.notes ≡ row 0 (take vars (drop (4 * vars) cells.old)) }
    {
        let (marks, rest) = cells.split_at_mut(vars);
        let (buffer, rest) = rest.split_at_mut(2 * vars);
        let (stack, rest) = rest.split_at_mut(vars);
        let (notes, _) = rest.split_at_mut(vars);
        Scratch {
            marks: MarkCells::new(marks),
            buffer: Lits::new(buffer),
            stack: Lits::new(stack),
            notes: Lits::new(notes),
        }
    }
}

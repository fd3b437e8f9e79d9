// Watch lists as linked nodes in a lent slice, since there is no heap for a Vec for each literal. A node is a record of two cells, its link and its blocker;
// clause c has the nodes 2c and 2c + 1. Behind the nodes a literal has two records, whose first cells are links too.
// The links of a list are, in order, those of the literal's two records and of the list's nodes: the link at place i names the node at place i.
// So a node's link names the node two places on, and a walk has two links at hand, and need not wait for the next node.
// The literal's two records have as second cells the two links behind the list's end, which name no node.
#![tactic(auto)]

ghost use Rattle.std.specs.Prelude.{◌≡◌, ◌+◌, ◌*◌, ◌≤◌, ◌<◌, [], length, get_or, ltb, replicate};
ghost use Rattle.std.specs.Simd.{first_chunks};
ghost use Rattle.model.specs.Limits.{max_variables, max_clauses};
ghost use Rattle.model.specs.Lit.{neg};
ghost use Rattle.watch.specs.View.{Sound, LaidOut, cells_of, found, list_of, Free, Under, appended, attached, unlinked, blocked, emptied};
ghost use Rattle.watch.specs.Walk.{Stands, Gone};

mod table;

use clause::Lit;
use std::marker::Model;
use table::Table;

// How many lists, two for each variable, and how many nodes, two for each clause that can be stored.
#[derive(Clone, Copy)]
struct Size {
    slots: usize,
    nodes: usize,
}

impl Size {
    // The first of the two records of l.
    fn home(self, l: Lit) -> usize
        requires bounds { (self.slots ≤ 2 * max_variables) × (self.nodes ≤ 2 * max_clauses) }
        requires l_lt_slots { l.0 < self.slots }
        ensures { result ≡ self.nodes + 2 * l.0 }
    {
        self.nodes + 2 * l.0 as usize
    }
}

// A place on a walk through a list: the record whose link names the node there, the record of the next link, and how many nodes have been passed that stayed.
// No step reads that number; it says in the contracts where the walk is. That the cursor stands in a list (`Stands`) depends on the list,
// so it is asked and no invariant. It is no iterator: propagation changes the list while it is walked.
#[derive(Clone, Copy)]
pub struct Cursor {
    pub at: usize,
    pub after: usize,
    pub passed: usize,
}

// The watch lists: contracts see for each literal the nodes of its list in order, and for each node its blocker.
// That a literal has a list, and that a node is one of these, is asked where they are used: it depends on the lists.
#[derive(Drop)]
pub struct Watches<'a> {
    table: Table<'a>,
    size: Size,
}

impl<'a> Model for Watches<'a> {
    ghost use Rattle.watch.specs.View.{Watches, Rep, shown};

    ghost Value = { Watches };

    ghost view = { λ s. shown s.size s.table };

    ghost invariant = { λ s. Rep s.size s.table };
}

impl<'a> Watches<'a> {
    // All lists empty, whatever the cells held.
    pub fn new(cells: &'a mut [u32], slots: usize, nodes: usize) -> Watches<'a>
        requires fits { 2 * nodes + 4 * slots ≤ length cells.old }
        requires bounds { (slots ≤ 2 * max_variables) × (nodes ≤ 2 * max_clauses) }
        ensures value { result ≡ emptied slots (found slots nodes cells.old) }
        ensures lists { result.lists ≡ replicate slots [] }
        ensures blockers { length result.blockers ≡ nodes }
    {
        let size = Size { slots, nodes };
        let end = nodes + 2 * slots;
        let mut table = Table::new(cells, end);
        // By number: each record gets its own.
        for x in nodes..end {
            table.set_note(x, x as u32);
        }
        Watches { table, size }
    }

    // The lists that stand in the cells: for a caller that did not begin with `new`.
    pub fn from_parts(cells: &'a mut [u32], slots: usize, nodes: usize) -> Watches<'a>
        requires fits { 2 * nodes + 4 * slots ≤ length cells.old }
        requires laid_out { LaidOut slots nodes cells.old }
        ensures { result ≡ found slots nodes cells.old }
    {
        let table = Table::new(cells, nodes + 2 * slots);
        let size = Size { slots, nodes };
        Watches { table, size }
    }

    // The cells that the lists stand in, in the caller's slice again.
    pub fn into_cells(self) -> &'a mut [u32]
        ensures laid_out { LaidOut (length self.entry.lists) (length self.entry.blockers) result.now }
        ensures value { found (length self.entry.lists) (length self.entry.blockers) result.now ≡ self.entry }
        ensures cells { cells_of (first_chunks 2 (length self.entry.blockers + 2 * length self.entry.lists) result.now) ≡ self.entry.cells }
        ensures count { length result.now ≡ 2 * length self.entry.blockers + 4 * length self.entry.lists }
    {
        let Watches { table, size: _ } = self;
        table.into_cells()
    }

    // What is true of all watch lists, for a caller's proof.
    pub fn sound(&self)
        ensures { Sound self.now }
    {
        let _size = &self.size;
    }

    pub fn blocker(&self, x: usize) -> Lit
        requires { x < length self.now.blockers }
        ensures { result.0 ≡ get_or self.now.blockers x 0 }
    {
        Lit(self.table.note(x))
    }

    pub fn set_blocker(&mut self, x: usize, b: Lit)
        requires { x < length self.old.blockers }
        ensures { self.new ≡ blocked x b.0 self.old }
    {
        self.table.set_note(x, b.0);
    }

    // A node that is in no list goes to the end of the list of l, with the blocker b.
    pub fn append(&mut self, l: Lit, x: usize, b: Lit)
        requires bounds { (l.0 < length self.old.lists) × (x < length self.old.blockers) }
        requires free { Free x self.old.lists }
        ensures { self.new ≡ appended l.0 x b.0 self.old }
    {
        let e = self.size.home(l);
        let y = x as u32;
        let t = self.table.note(e);
        let u = self.table.note(e + 1);
        self.table.set_note(x, b.0);
        self.table.set_note(e, u);
        self.table.set_note(e + 1, y);
        self.table.set_link(t as usize, y);
    }

    // The first two literals p and q of a new clause are watched, each with the other as blocker.
    pub fn attach(&mut self, c: usize, p: Lit, q: Lit)
        requires bounds { (neg p.0 < length self.old.lists) × (neg q.0 < length self.old.lists) × (2 * c + 1 < length self.old.blockers) }
        requires under { Under (2 * c) self.old.lists }
        ensures { self.new ≡ attached c p.0 q.0 self.old }
    {
        self.sound();
        let x = 2 * c;
        self.append(p.negate(), x, q);
        self.append(q.negate(), x + 1, p);
    }

    // The node x at the cursor leaves the list of l. Where it is the last, the list ends at the cursor; else the cursor's two links go past it, and where it is
    // the last but one, the second of these is the first behind the end.
    fn unlink(&mut self, l: Lit, c: Cursor, x: usize)
        requires l_bound { l.0 < length self.old.lists }
        requires stands { Stands (length self.old.blockers) l.0 c (list_of self.old l.0) × (c.passed < length (list_of self.old l.0)) }
        requires x_value { x ≡ get_or (list_of self.old l.0) c.passed 0 }
        ensures { self.new ≡ unlinked l.0 c.passed self.old }
    {
        let e = self.size.home(l);
        let a = c.at;
        let b = c.after;
        let t = self.table.note(e) as usize;
        let u = self.table.note(e + 1) as usize;
        if u == x {
            self.table.set_note(e, a as u32);
            self.table.set_note(e + 1, b as u32);
            return;
        }
        let y = self.table.link(b);
        let z = self.table.link(x);
        self.table.set_link(a, y);
        self.table.set_link(b, z);
        if t == x {
            self.table.set_note(e, b as u32);
        }
    }

    // The cursor at the start of the list of l.
    pub fn walk(&self, l: Lit) -> Cursor
        requires { l.0 < length self.now.lists }
        ensures { Stands (length self.now.blockers) l.0 result (list_of self.now l.0) × (result.passed ≡ 0) }
    {
        let e = self.size.home(l);
        Cursor {
            at: e,
            after: e + 1,
            passed: 0,
        }
    }

    // Whether the cursor is at a node, and not at the list's end.
    pub fn more(&self, l: Lit, c: Cursor) -> bool
        requires l_bound { l.0 < length self.now.lists }
        requires stands { Stands (length self.now.blockers) l.0 c (list_of self.now l.0) }
        ensures { result ≡ ltb c.passed (length (list_of self.now l.0)) }
    {
        let e = self.size.home(l);
        c.at != self.table.note(e) as usize
    }

    // The node at the cursor.
    pub fn node(&self, l: Lit, c: Cursor) -> usize
        requires l_bound { l.0 < length self.now.lists }
        requires stands { Stands (length self.now.blockers) l.0 c (list_of self.now l.0) × (c.passed < length (list_of self.now l.0)) }
        ensures { (result ≡ get_or (list_of self.now l.0) c.passed 0) × (result < length self.now.blockers) }
    {
        self.table.link(c.at) as usize
    }

    // The node x at the cursor stays: on to the next.
    pub fn stay(&self, l: Lit, c: Cursor, x: usize) -> Cursor
        requires l_bound { l.0 < length self.now.lists }
        requires stands { Stands (length self.now.blockers) l.0 c (list_of self.now l.0) × (c.passed < length (list_of self.now l.0)) }
        requires x_value { x ≡ get_or (list_of self.now l.0) c.passed 0 }
        ensures { Stands (length self.now.blockers) l.0 result (list_of self.now l.0) × (result.passed ≡ c.passed + 1) }
    {
        self.sound();
        Cursor {
            at: c.after,
            after: x,
            passed: c.passed + 1,
        }
    }

    // The node x at the cursor goes to the end of the list of m, with the blocker b. The cursor is at the next as it is.
    // In all of these the list's literal stands beside the cursor, since it does not move, and x, which the caller has read by `node` already.
    pub fn leave(&mut self, l: Lit, c: Cursor, x: usize, m: Lit, b: Lit)
        requires lists { (l.0 < length self.old.lists) × (m.0 < length self.old.lists) × (l.0 ≡ m.0 → ⊥) }
        requires stands { Stands (length self.old.blockers) l.0 c (list_of self.old l.0) × (c.passed < length (list_of self.old l.0)) }
        requires x_value { x ≡ get_or (list_of self.old l.0) c.passed 0 }
        ensures { Gone self.new l.0 m.0 b.0 self.old c }
    {
        self.sound();
        self.unlink(l, c, x);
        self.append(m, x, b);
    }
}

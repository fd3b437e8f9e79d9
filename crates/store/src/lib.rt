// The clause store: where each clause starts, and the literals in one row.
#![tactic(auto)]

ghost use Rattle.std.specs.Prelude.{◌≡◌, ◌&&◌, [], ◌+◌, ◌<◌, ◌≤◌, length, get_or, leb, ltb};
ghost use Rattle.model.specs.Limits.{max_clauses, max_literals};
ghost use Rattle.model.specs.Store.{stored_literals};
ghost use Rattle.store.specs.View.{Rep, Sound, Counted, shown, clause_of, next_lit, found, no_clauses, lit_set, lit_pushed, closed, discarded};

use clause::Lit;
use std::marker::Model;

// Clause c goes from starts[c] to starts[c + 1]. `used` literals are in clauses, and `pushed` more are behind them for the next one.
// Lent slices with lengths, since there is no heap for a Vec of clauses. A clause's number is asked to be the store's where it is used: no type can know it.
#[derive(Drop)]
pub struct Store<'a> {
    starts: &'a mut [u32],
    literals: &'a mut [u32],
    clauses: usize,
    used: usize,
    pushed: usize,
}

impl<'a> Model for Store<'a> {
    ghost use Rattle.store.specs.View.{Clauses, Rep, shown};

    ghost Value = { Clauses };

    ghost view = { λ s. shown s.starts.now s.literals.now s.clauses s.used s.pushed };

    ghost invariant = { λ s. Rep s.starts.now s.literals.now s.clauses s.used s.pushed };
}

// The slices of a store and its counts, for a caller that lays out the cells or reads them.
#[derive(Drop)]
pub struct Parts<'a> {
    pub starts: &'a mut [u32],
    pub literals: &'a mut [u32],
    pub clauses: usize,
    pub used: usize,
    pub pushed: usize,
}

impl<'a> Store<'a> {
    // The empty store, whatever stood in the slices: room for one clause less than it has starts.
    #[tactic(auto, using(crate::specs::Laws::new_shows))]
    pub fn new(starts: &'a mut [u32], literals: &'a mut [u32]) -> Store<'a>
        requires starts { (1 ≤ length starts.old) × (length starts.old ≤ max_clauses + 1) }
        requires literals { length literals.old ≤ max_literals }
        ensures { result ≡ no_clauses (found starts.old literals.old) }
    {
        starts[0] = 0;
        Store {
            starts,
            literals,
            clauses: 0,
            used: 0,
            pushed: 0,
        }
    }

    // The store that stands in the cells: for a caller that did not begin with `new`.
    pub fn from_parts(parts: Parts<'a>) -> Store<'a>
        requires { Rep parts.starts.now parts.literals.now parts.clauses parts.used parts.pushed }
        ensures { result ≡ shown parts.entry.starts.now parts.entry.literals.now parts.entry.clauses parts.entry.used parts.entry.pushed }
    {
        let Parts {
            starts,
            literals,
            clauses,
            used,
            pushed,
        } = parts;
        Store {
            starts,
            literals,
            clauses,
            used,
            pushed,
        }
    }

    // The caller's slices again, with the clauses in them, and the counts.
    #[tactic(auto, using(crate::specs::Laws::cells_are))]
    pub fn into_parts(self) -> Parts<'a>
        ensures rep { Rep result.starts.now result.literals.now result.clauses result.used result.pushed }
        ensures value { shown result.starts.now result.literals.now result.clauses result.used result.pushed ≡ self.entry }
        ensures cells { (result.starts.now ≡ self.entry.start_cells) × (result.literals.now ≡ self.entry.lit_cells) }
        ensures counts { Counted self.entry result.clauses result.used result.pushed }
    {
        let Store {
            starts,
            literals,
            clauses,
            used,
            pushed,
        } = self;
        Parts {
            starts,
            literals,
            clauses,
            used,
            pushed,
        }
    }

    // What is true of every store, for a caller's proof.
    pub fn sound(&self)
        ensures { Sound self.now }
    {
        let _ = &self.starts;
    }

    // How many clauses are stored.
    #[tactic(auto, using(crate::specs::Laws::count_is))]
    pub fn len(&self) -> usize
        ensures { result ≡ length self.now.clauses }
    {
        self.clauses
    }

    // The literals of a clause.
    #[tactic(auto, using(crate::specs::Laws::count_is, crate::specs::Laws::part_is))]
    pub fn clause(&self, c: usize) -> &[u32]
        requires { c < length self.now.clauses }
        ensures { result.now ≡ clause_of self.now c }
    {
        let starts = &self.starts;
        &self.literals[starts[c] as usize..starts[c + 1] as usize]
    }

    // How many literals a clause has.
    pub fn size(&self, c: usize) -> usize
        requires { c < length self.now.clauses }
        ensures { result ≡ length (clause_of self.now c) }
    {
        self.clause(c).len()
    }

    // Literal i of a clause.
    pub fn lit(&self, c: usize, i: usize) -> Lit
        requires { (c < length self.now.clauses) × (i < length (clause_of self.now c)) }
        ensures { result.0 ≡ get_or (clause_of self.now c) i 0 }
    {
        Lit(self.clause(c)[i])
    }

    // Literal i of clause c becomes p.
    #[tactic(auto, using(crate::specs::Laws::count_is, crate::specs::Laws::lit_within, crate::specs::Laws::set_shows))]
    pub fn set_lit(&mut self, c: usize, i: usize, p: Lit)
        requires { (c < length self.old.clauses) × (i < length (clause_of self.old c)) }
        ensures { self.new ≡ lit_set self.old c i p.0 }
    {
        let starts = &self.starts;
        let a = starts[c] as usize;
        self.literals[a + i] = p.0;
    }

    // One more literal for the next clause.
    #[tactic(auto, using(crate::specs::Laws::push_within, crate::specs::Laws::push_keeps, crate::specs::Laws::push_shows))]
    pub fn push(&mut self, p: Lit)
        requires { next_lit self.old < self.old.lit_room }
        ensures { self.new ≡ lit_pushed self.old p.0 }
    {
        self.literals[self.used + self.pushed] = p.0;
        self.pushed += 1;
    }

    // The literals pushed become a clause.
    #[tactic(auto, using(crate::specs::Laws::close_within, crate::specs::Laws::close_shows))]
    pub fn close(&mut self)
        requires { length self.old.clauses < self.old.room }
        ensures { self.new ≡ closed self.old }
    {
        self.clauses += 1;
        self.used += self.pushed;
        self.pushed = 0;
        self.starts[self.clauses] = self.used as u32;
    }

    // The literals pushed are given up.
    #[tactic(auto, using(crate::specs::Laws::discard_shows))]
    pub fn discard(&mut self)
        ensures { self.new ≡ discarded self.old }
    {
        self.pushed = 0;
    }

    // Whether a clause of n literals can be stored.
    #[tactic(auto, using(crate::specs::Laws::has_room_is))]
    pub fn has_room(&self, n: usize) -> bool
        ensures { result ≡ (ltb (length self.now.clauses) self.now.room && leb (stored_literals self.now.clauses + n) self.now.lit_room) }
    {
        let room = self.starts.len() - 1;
        room_for(room, self.literals.len(), self.clauses, self.used, n)
    }
}

// Whether there is room for a clause of n literals beside so many clauses and literals.
pub fn room_for(room: usize, lit_room: usize, clauses: usize, literals: usize, n: usize) -> bool
    requires { literals ≤ lit_room }
    ensures { result ≡ (ltb clauses room && leb (literals + n) lit_room) }
{
    // The sum of literals and n may not fit its type.
    clauses < room && n <= lit_room - literals
}

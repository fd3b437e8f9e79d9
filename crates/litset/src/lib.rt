// A set of literals, as IntSet of intmap.rs: in order of first insertion, with no repeats.
#![tactic(auto)]

ghost use Rattle.std.specs.Prelude.{◌≡◌, ◌<◌, [], length, get_or, replicate};
ghost use Rattle.litset.specs.View.{members, inserted, emptied, Insertable, Sound, Rep};

use clause::Lit;
use scratch::Lits;
use std::marker::Model;

// `flags` has a cell for each literal, which is 1 for a member and else 0. A slice beside the list: there is no heap, and a look-up is one cell.
#[derive(Drop)]
pub struct LitSet<'a> {
    flags: &'a mut [u32],
    items: Lits<'a>,
}

impl<'a> Model for LitSet<'a> {
    ghost use Rattle.litset.specs.View.{Members, members, Rep};

    ghost Value = { Members };

    ghost view = { λ s. members s.flags.now s.items };

    ghost invariant = { λ s. Rep s.flags.now s.items.items };
}

impl<'a> LitSet<'a> {
    // The empty set, whatever the slices held.
    pub fn new(flags: &'a mut [u32], items: &'a mut [u32]) -> LitSet<'a>
        ensures { result ≡ record { items = []; flag_cells = replicate (length flags.old) 0; item_cells = items.old } }
    {
        flags.fill(0);
        LitSet {
            flags,
            items: Lits::new(items),
        }
    }

    // A set as it is found: the flags are those of the list's literals.
    pub fn from_parts(flags: &'a mut [u32], items: Lits<'a>) -> LitSet<'a>
        requires { Rep flags.old items.items }
        ensures { result ≡ members flags.old items.entry }
    {
        LitSet { flags, items }
    }

    // The flags as they are now, in the caller's slice again, and the list of the members.
    pub fn into_parts(self) -> (&'a mut [u32], Lits<'a>)
        ensures flags { result.0.now ≡ self.entry.flag_cells }
        ensures items { result.1 ≡ record { items = self.entry.items; cells = self.entry.item_cells } }
        ensures rep { Rep result.0.now result.1.items }
    {
        let LitSet { flags, items } = self;
        (flags, items)
    }

    // What is true of every set, for a caller's proof.
    pub fn sound(&self)
        ensures { Sound self.now }
    {
        self.items.sound();
    }

    // Adds l, unless it is a member.
    pub fn insert(&mut self, l: Lit)
        requires { Insertable self.old l.0 }
        ensures { self.new ≡ inserted self.old l.0 }
    {
        let at = l.0 as usize;
        if self.flags[at] != 0 {
            return;
        }
        self.flags[at] = 1;
        self.items.push(l);
    }

    pub fn len(&self) -> usize
        ensures { result ≡ length self.now.items }
    {
        self.items.len()
    }

    // The member that was put in i-th.
    pub fn at(&self, i: usize) -> Lit
        requires { i < length self.now.items }
        ensures { result.0 ≡ get_or self.now.items i 0 }
    {
        self.items.at(i)
    }

    // The members, in order.
    pub fn items(&self) -> &[u32]
        ensures { result.now ≡ self.now.items }
    {
        self.items.items()
    }

    // Removes every member.
    pub fn clear(&mut self)
        ensures { self.new ≡ emptied (length self.old.flag_cells) self.old }
    {
        unflag(self.flags, self.items.items());
        self.items.clear();
    }
}

// The flags of the members are taken back: then none is set.
fn unflag(flags: &mut [u32], items: &[u32])
    requires { Rep flags.old items.now }
    ensures { flags.new ≡ replicate (length flags.old) 0 }
{
    for l in items {
        flags[*l as usize] = 0;
    }
}

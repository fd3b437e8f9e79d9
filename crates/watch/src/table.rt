// A lent slice as records of two cells: a link, and a note, which is a node's blocker or an end of a list.
// Each cell has a pair of functions of its own: one pair that takes 0 or 1 would read no plainer.
ghost use Rattle.std.specs.Prelude.{◌≡◌, ◌*◌, ◌≤◌, ◌<◌, length, get_or};
ghost use Rattle.std.specs.Simd.{first_chunks};
ghost use Rattle.watch.specs.View.{cells_of, with_link, with_note};

use std::marker::Model;

// Its functions name the slice before they index it: so the check knows its length, and that the index fits.
#[derive(Drop)]
pub struct Table<'a> {
    records: &'a mut [[u32; 2]],
}

impl<'a> Model for Table<'a> {
    ghost use Rattle.watch.specs.View.{Cells, Paired, cells_of};

    ghost Value = { Cells };

    ghost view = { λ t. cells_of t.records.now };

    ghost invariant = { λ t. Paired t.records.now };
}

impl<'a> Table<'a> {
    // The first records of a slice.
    pub fn new(cells: &'a mut [u32], count: usize) -> Table<'a>
        requires { 2 * count ≤ length cells.old }
        ensures { result ≡ cells_of (first_chunks 2 count cells.old) }
    {
        let (records, _) = cells.as_chunks_mut::<2>();
        Table {
            records: &mut records[..count],
        }
    }

    // The cells of the records, one after another.
    pub fn into_cells(self) -> &'a mut [u32]
        ensures value { cells_of (first_chunks 2 (length self.entry.links) result.now) ≡ self.entry }
        ensures count { length result.now ≡ 2 * length self.entry.links }
    {
        let Table { records } = self;
        records.as_flattened_mut()
    }

    pub fn link(&self, x: usize) -> u32
        requires { x < length self.now.links }
        ensures { result ≡ get_or self.now.links x 0 }
    {
        let records = &*self.records;
        records[x][0]
    }

    pub fn note(&self, x: usize) -> u32
        requires { x < length self.now.notes }
        ensures { result ≡ get_or self.now.notes x 0 }
    {
        let records = &*self.records;
        records[x][1]
    }

    pub fn set_link(&mut self, x: usize, v: u32)
        requires { x < length self.old.links }
        ensures { self.new ≡ with_link x v self.old }
    {
        let records = &mut *self.records;
        records[x][0] = v;
    }

    pub fn set_note(&mut self, x: usize, v: u32)
        requires { x < length self.old.notes }
        ensures { self.new ≡ with_note x v self.old }
    {
        let records = &mut *self.records;
        records[x][1] = v;
    }
}

// The reader of a script: its records in turn.
#![tactic(auto)]

ghost use Rattle.std.specs.Prelude.{◌≡◌};
ghost use Rattle.std.specs.Iterator.{YieldsFirstBy, item_count};
ghost use Rattle.model.specs.Script.{records_of};
ghost use Rattle.script.specs.Kinds.{record_of};
ghost use Rattle.script.specs.Sound.{Readable, Readable-prop};

use script::{HEADER_CELLS, Record, Script};

// The records from a cell on. The script with a place in it, since what is left of a script has no header and is none.
#[derive(Clone, Copy)]
pub struct Records<'a> {
    script: Script<'a>,
    at: usize,
    ghost readable: { Readable script.header.variables script.cells.now at } by { Readable-prop script.header.variables script.cells.now at },
}

impl<'a> Records<'a> {
    ghost use Rattle.reader.specs.Rest.{rest_of};

    // All records of the script.
    pub fn new(script: Script<'a>) -> Records<'a>
        ensures { rest_of result ≡ records_of script.entry.cells.now }
    {
        Records {
            script,
            at: HEADER_CELLS,
        }
    }
}

impl<'a> Iterator for Records<'a> {
    ghost use Rattle.reader.specs.Rest.{rest_of};

    type Item = Record<'a>;

    ghost next_gives = { YieldsFirstBy record_of rest_of };

    ghost remaining = { item_count rest_of };

    fn next(&mut self) -> Option<Record<'a>> {
        if self.script.cells.len() <= self.at {
            return None;
        }
        let record = Record::read(self.script.cells, self.at);
        self.at += record.cells();
        Some(record)
    }
}

// Every small rule book: the sets of at most three clauses over V variables, each solved in a fresh run.
#![tactic(auto)]

ghost use Rattle.std.specs.Prelude.{◌≡◌, [], ◌∷◌, ◌++◌, ◌+◌, ◌≤◌, ◌<◌, length};
ghost use Rattle.text.specs.Prints.{Prints as PrintsMore};
ghost use Rattle.smallbooks.specs.Books.{apart, clauses, header, record_of, records_of, solve_record, fresh, printed};
ghost use Rattle.smallbooks.specs.Pick.{if_apart, picked, table_cells, Picking};
ghost use Rattle.smallbooks.specs.Score.{one_more};
ghost use Rattle.smallbooks.specs.Tell.{longest, Choosing, Chose, Tells, Listing, Telling};
ghost use Rattle.smallbooks.specs.Whole.{most_line, Booked, Prints};

use arrayvec::ArrayVec;
use options::{Mode, Phase};
use script::Kind;
use text::{Printer, Verdict};

// What a run answers to its solve.
#[derive(Clone, Copy)]
pub struct Found {
    pub verdict: Option<Verdict>,
    pub conflicts: u32,
}

// How many sets there were, the greatest conflicts, and the number, from 1, of the first set with that many.
#[derive(Clone, Copy)]
pub struct Score {
    pub count: u32,
    pub most: u32,
    pub first: u32,
}

impl Score {
    // A set more.
    fn add(&mut self, conflicts: u32)
        requires { self.old.count < 4294967295 }
        ensures { self.new ≡ one_more self.old conflicts }
    {
        self.count += 1;
        if self.most < conflicts {
            self.most = conflicts;
            self.first = self.count;
        }
    }
}

// ---- the clauses

// The literals of a clause; of three variables it has no more.
type Clause = ArrayVec<u32, 3>;

// The records of all clauses.
type Table = ArrayVec<u32, 112>;

// No variable twice: the literals stand upward, so those of a variable stand side by side.
fn apart(clause: &[u32]) -> bool
    ensures { result ≡ apart clause.now }
{
    clause
        .iter()
        .zip(clause.iter().skip(1))
        .all(|(l, m)| l / 2 != m / 2)
}

// A clause's record, to a vector: `Writer::put` of crate counter writes one to a slice.
fn put_clause<const N: usize>(to: &mut ArrayVec<u32, N>, clause: &[u32])
    requires room { length to.old.items + (2 + length clause.now) ≤ N }
    requires short { length clause.now ≤ 4294967295 }
    ensures { to.new.items ≡ to.old.items ++ record_of clause.now }
{
    to.push(Kind::Clause as u32);
    to.push(clause.len() as u32);
    to.try_extend_from_slice(clause).unwrap();
}

// A clause joins the table, if it has no variable twice.
fn keep(clause: &[u32], table: &mut Table)
    requires room { length table.old.items + length (if_apart clause.now) ≤ table_cells }
    requires short { length clause.now ≤ 4294967295 }
    ensures { table.new.items ≡ table.old.items ++ if_apart clause.now }
{
    if apart(clause) {
        put_clause(table, clause);
    }
}

// The clauses of the literals chosen and `left` more, each from l to end - 1.
fn each_clause(l: u32, end: u32, left: usize, chosen: &mut Clause, table: &mut Table)
    requires { Picking l end left chosen.old.items table.old.items }
    ensures kept { chosen.new.items ≡ chosen.old.items }
    ensures cells { table.new.items ≡ table.old.items ++ picked chosen.old.items left l end }
{
    if left == 0 {
        return keep(chosen, table);
    }
    if l == end {
        return;
    }
    chosen.push(l);
    each_clause(l + 1, end, left - 1, chosen, table);
    chosen.pop();
    each_clause(l + 1, end, left, chosen, table);
}

// The clauses of v variables, by length.
fn clauses(v: u32) -> Table
    requires { v ≤ 3 }
    ensures { result.items ≡ records_of (clauses v) }
{
    let mut chosen = Clause::new();
    let mut table = Table::new();
    for k in 1..v + 1 {
        each_clause(0, 2 * v, k as usize, &mut chosen, &mut table);
    }
    table
}

// ---- a set

// A set's two lines.
fn put_found(printer: &mut Printer, found: Found)
    ensures lines { PrintsMore printer.old printer.new (printed found) }
    ensures short { length (printed found) ≤ longest }
{
    printer.verdict(found.verdict);
    printer.numbered(b"conflicts=", u64::from(found.conflicts));
}

// ---- a book

// A header, the records of three clauses, and a solve's.
type Script = ArrayVec<u32, 24>;

// A walk through the sets: the script of the clauses taken, without its solve, how many they are, which a script does not say, and what is told so far.
#[derive(Drop)]
struct Walk<'a, 'b> {
    script: Script,
    taken: usize,
    score: Score,
    printer: &'a mut Printer<'b>,
}

impl Walk<'_, '_> {
    // What a fresh run of the script says of the solve behind the clauses taken.
    fn found(&self) -> Found
        requires { self.now.taken ≤ 3 }
        ensures { result ≡ fresh self.now.taken self.now.script.items }
    {
        let mut work = [0; 8352];
        let mut activities = [0.0; 3];
        let mut out = [0; 10];
        match engine::run(&self.script, &mut work, &mut activities, &mut out) {
            Err(_) => Found {
                verdict: Some(Verdict::Undef),
                conflicts: 0,
            },
            Ok(_) => Found {
                verdict: Verdict::from_cell(out[self.taken]),
                conflicts: out[self.taken + 1],
            },
        }
    }

    // The set's run and its lines. `same_reference`, here and below: the printer is still the one that was lent, which `Tells` does not say, since it is of what
    // stands in it.
    fn solve(&mut self)
        requires { (length self.old.script.items + 3 ≤ 24) × (self.old.taken ≤ 3) × (self.old.score.count < 4294967295) }
        ensures same_reference { self.new.printer.ghost_name ≡ self.old.printer.ghost_name }
        ensures told { Tells self.old self.new (fresh self.old.taken (self.old.script.items ++ solve_record) ∷ []) }
    {
        let used = self.script.len();
        self.script
            .try_extend_from_slice(&[Kind::Solve as u32, 0, 1000000])
            .unwrap();
        let found = self.found();
        self.script.truncate(used);
        put_found(self.printer, found);
        self.score.add(found.conflicts);
    }

    // The sets of the clauses in the script and `left` more of those listed.
    fn each_set(&mut self, listed: &[u32], left: usize)
        requires { Choosing self.old listed.now left }
        ensures same_reference { self.new.printer.ghost_name ≡ self.old.printer.ghost_name }
        ensures chose { Chose self.old self.new listed.now left }
    {
        if left == 0 {
            return self.solve();
        }
        let [_, n, rest @ ..] = listed else {
            return;
        };
        let (clause, rest) = rest.split_at(*n as usize);
        let used = self.script.len();
        put_clause(&mut self.script, clause);
        self.taken += 1;
        self.each_set(rest, left - 1);
        self.script.truncate(used);
        self.taken -= 1;
        self.each_set(rest, left);
    }

    // The sets of at most three clauses, by size.
    fn sets(&mut self, table: &[u32])
        requires { Listing self.old table.now }
        ensures same_reference { self.new.printer.ghost_name ≡ self.old.printer.ghost_name }
        ensures told { Telling 4 self.old self.new table.now }
    {
        for k in 0..4 {
            self.each_set(table, k);
        }
    }
}

fn header(v: u32) -> Script
    ensures { result.items ≡ header v }
{
    let mut script = Script::new();
    script
        .try_extend_from_slice(&[v, 512, 4096, Mode::Minimise as u32, Phase::Full as u32, 100])
        .unwrap();
    script
}

// The greatest conflicts, and the first set with that many.
fn put_most(printer: &mut Printer, score: Score)
    ensures line { PrintsMore printer.old printer.new (most_line score) }
    ensures short { length (most_line score) ≤ 27 }
{
    printer.bytes(b"most=");
    printer.number(u64::from(score.most));
    printer.numbered(b" ", u64::from(score.first));
}

// The sets of v variables, and their most.
fn book(v: u32, printer: &mut Printer)
    requires { v ≤ 3 }
    ensures { Booked v printer.old printer.new }
{
    let table = clauses(v);
    let mut walk = Walk {
        script: header(v),
        taken: 0,
        score: Score {
            count: 0,
            most: 0,
            first: 1,
        },
        printer,
    };
    walk.sets(&table);
    let score = walk.score;
    put_most(printer, score);
}

// Every small rule book, of one, two and three variables; the result is where the text ends.
pub fn print(text: &mut [u8]) -> usize
    ensures { Prints text.old text.new result }
{
    let mut printer = Printer::new(text);
    book(1, &mut printer);
    book(2, &mut printer);
    book(3, &mut printer);
    printer.at
}

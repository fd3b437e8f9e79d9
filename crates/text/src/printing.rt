// Answers, printed.
ghost use Rattle.std.specs.Prelude.{◌≡◌, [], ◌∷◌, ◌+◌, ◌*◌, ◌≤◌, ◌<◌, ◌^◌, length, get_or, take, drop};
ghost use Rattle.text.specs.Number.{shown, shown_literal};
ghost use Rattle.text.specs.Limits.{max_cells};
ghost use Rattle.text.specs.Format.{record_lines};
ghost use Rattle.refusal.specs.Number.{number};
ghost use Rattle.script.specs.Kinds.{cell_of as kind_cell};
ghost use Rattle.text.specs.Kinds.{cell_of};
ghost use Rattle.model.specs.Script.{trailing};
ghost use Rattle.text.specs.Answers.{numbered, printed_refusal, item, spaced, listed, verdict, body_key, body, printed_solve, printed_clause, printed_record, answer_cells, printed};
ghost use Rattle.text.specs.WriteLaws.{Written};
ghost use Rattle.text.specs.Prints.{Prints};

use crate::kinds::kind_of;
use crate::printer::Printer;
use cells::Verdict;
use refusal::Refusal;
use script::{HEADER_CELLS, Kind};

// What stands behind the first n elements.
fn behind<T>(s: &[T], n: usize) -> &[T]
    ensures { result.now ≡ drop n s.now }
{
    s.get(n..).unwrap_or(&[])
}

// The literal that cell i of a model or a final clause stands for.
#[tactic(auto, unfolding(crate::specs::Answers::item))]
fn item(verdict: Option<Verdict>, i: usize, x: u32) -> u64
    requires { i < 2 ^ 62 }
    ensures { result ≡ item (cell_of verdict) i x }
{
    match verdict {
        Some(Verdict::True) if x == 0 => 2 * i as u64,
        Some(Verdict::True) => 2 * i as u64 + 1,
        _ => u64::from(x),
    }
}

impl<'a> Printer<'a> {
    pub fn new(text: &'a mut [u8]) -> Printer<'a>
        ensures same_reference { result.text.ghost_name ≡ text.entry.ghost_name }
        ensures start { result.at ≡ 0 }
        ensures text { result.text.now ≡ text.old }
    {
        Printer { text, at: 0 }
    }

    pub fn bytes(&mut self, bytes: &[u8])
        ensures { Prints self.old self.new bytes.now }
    {
        let n = bytes.len().min(self.text.len() - self.at);
        let end = self.at + n;
        self.text[self.at..end].copy_from_slice(&bytes[..n]);
        self.at = end;
    }

    // One byte is stored, and not copied as `bytes` would copy a slice of one: numbers are printed digit by digit.
    fn byte(&mut self, b: u8)
        ensures { Prints self.old self.new (b ∷ []) }
    {
        if self.at < self.text.len() {
            self.text[self.at] = b;
            self.at += 1;
        }
    }

    // A number in decimal. By hand: `write!` promises its text only where it gives Ok, and what a `Printer` prints is promised always.
    pub fn number(&mut self, n: u64)
        ensures { Prints self.old self.new (shown n) }
    {
        if 10 <= n {
            self.number(n / 10);
        }
        self.byte(b'0' + (n % 10) as u8);
    }

    // A key and a number on a line.
    pub fn numbered(&mut self, key: &[u8], n: u64)
        ensures { Prints self.old self.new (numbered key.now n) }
    {
        self.bytes(key);
        self.number(n);
        self.byte(b'\n');
    }

    // A literal as a signed number from 1.
    fn literal(&mut self, l: u64)
        ensures { Prints self.old self.new (shown_literal l) }
    {
        if l % 2 == 1 {
            self.byte(b'-');
        }
        self.number(l / 2 + 1);
    }

    // With a blank in front of all but the first.
    fn spaced(&mut self, i: usize, l: u64)
        ensures { Prints self.old self.new (spaced i (shown_literal l)) }
    {
        if i != 0 {
            self.byte(b' ');
        }
        self.literal(l);
    }

    // The cells of a model or a final clause as literals.
    fn items(&mut self, verdict: Option<Verdict>, cells: &[u32])
        ensures { Prints self.old self.new (listed (cell_of verdict) 0 cells.now) }
    {
        for (i, x) in cells.iter().enumerate() {
            self.spaced(i, item(verdict, i, *x));
        }
    }

    #[tactic(auto, unfolding(crate::specs::Answers::verdict))]
    pub fn verdict(&mut self, answer: Option<Verdict>)
        ensures { Prints self.old self.new (verdict (cell_of answer)) }
    {
        match answer {
            Some(Verdict::True) => self.bytes(b"answer=TRUE\n"),
            Some(Verdict::False) => self.bytes(b"answer=FALSE\n"),
            _ => self.bytes(b"answer=UNDEF\n"),
        }
    }

    #[tactic(auto, unfolding(crate::specs::Answers::body_key))]
    fn body_key(&mut self, verdict: Option<Verdict>)
        ensures { Prints self.old self.new (body_key (cell_of verdict)) }
    {
        match verdict {
            Some(Verdict::True) => self.bytes(b"model="),
            _ => self.bytes(b"final="),
        }
    }

    // The model, the final clause, or the cause.
    fn body(&mut self, verdict: Option<Verdict>, cells: &[u32])
        ensures { Prints self.old self.new (body (cell_of verdict) cells.now) }
    {
        if verdict == Some(Verdict::Undef) {
            let cause = cells.first().copied().unwrap_or(0);
            return self.numbered(b"cause=", u64::from(cause));
        }
        self.body_key(verdict);
        self.items(verdict, cells);
        self.byte(b'\n');
    }

    // A solve, whose answer is the first cells of `out`.
    fn solve(&mut self, out: &[u32])
        ensures { Prints self.old self.new (printed_solve out.now) }
    {
        let verdict = Verdict::from_cell(out.first().copied().unwrap_or(0));
        let conflicts = out.get(1).copied().unwrap_or(0);
        let count = out.get(2).copied().unwrap_or(0);
        let cells = behind(out, 3);
        let n = cells.len().min(count as usize);
        self.verdict(verdict);
        self.numbered(b"conflicts=", u64::from(conflicts));
        self.body(verdict, &cells[..n]);
    }

    // A clause, unless it is taken: where the first cell of `out`, its answer, is 2. A number, since the enum of these answers
    // is of crate intake, and this crate does not stand on the engine.
    fn clause(&mut self, line: u32, out: &[u32])
        ensures { Prints self.old self.new (printed_clause line (get_or out.now 0 0)) }
    {
        if out.first() == Some(&2) {
            self.numbered(b"untaken=", u64::from(line));
        }
    }

    fn record(&mut self, kind: Kind, line: u32, out: &[u32])
        ensures { Prints self.old self.new (printed_record (kind_cell kind) line out.now) }
    {
        match kind {
            Kind::Clause => self.clause(line, out),
            Kind::Solve => self.solve(out),
        }
    }
}

// A refusal by its number, which may be any: a `Rule` has fewer, so `print_refused` stands beside it. The result is how many bytes, at most as many as the slice has.
pub fn print_refusal(number: u32, place: u64, text: &mut [u8]) -> usize
    ensures { Written text.old 0 (printed_refusal number place) text.new result }
{
    let mut printer = Printer::new(text);
    printer.numbered(b"refused=", u64::from(number));
    printer.numbered(b"place=", place);
    printer.at
}

// The same of a refusal by its rule.
pub fn print_refused(refusal: Refusal, text: &mut [u8]) -> usize
    ensures { Written text.old 0 (printed_refusal (number refusal.rule) refusal.place) text.new result }
{
    print_refusal(refusal.rule.number(), refusal.place, text)
}

// How many cells of `out` a record's answer has.
#[tactic(auto, unfolding(crate::specs::Answers::answer_cells))]
fn answer_cells(kind: Kind, out: &[u32]) -> usize
    ensures { result ≡ answer_cells (kind_cell kind) out.now }
{
    match kind {
        Kind::Clause => 1,
        Kind::Solve => 3 + out.get(2).copied().unwrap_or(0) as usize,
    }
}

// Prints the answers that `out` holds for the records of a script, each of which has its line in `lines`, since a script need not come from a text.
// The result is how many bytes, at most as many as the slice has.
pub fn print(script: &[u32], lines: &[u32], out: &[u32], text: &mut [u8]) -> usize
    ensures { Written text.old 0 (printed script.now lines.now out.now) text.new result }
{
    let mut printer = Printer::new(text);
    let mut records = behind(script, HEADER_CELLS);
    let mut lines = lines;
    let mut out = out;
    while let [first, tail @ ..] = records {
        let kind = kind_of(*first);
        printer.record(kind, lines.first().copied().unwrap_or(0), out);
        records = behind(tail, cells_behind(kind, tail));
        lines = behind(lines, 1);
        out = behind(out, answer_cells(kind, out));
    }
    printer.at
}

// How many cells a record has behind its first. `Record::cells` of crate script is of a record that holds; here the script may be any cells.
fn cells_behind(kind: Kind, tail: &[u32]) -> usize
    ensures { result ≡ 1 + get_or tail.now 0 0 + trailing (kind_cell kind) }
{
    let count = tail.first().copied().unwrap_or(0) as usize;
    match kind {
        Kind::Clause => 1 + count,
        Kind::Solve => 2 + count,
    }
}

// The line of each record of a text, as `print` asks for it: a record to a line, from line 5 on.
pub fn number_lines(lines: &mut [u32])
    requires { length lines.old ≤ max_cells }
    ensures { lines.new ≡ record_lines (length lines.old) }
{
    for (i, line) in lines.iter_mut().enumerate() {
        *line = i as u32 + 5;
    }
}

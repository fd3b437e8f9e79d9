// A text, read as a script. A function of a line writes its cells first into the slice that it is lent, where they fit, and gives how many they are.
// There is no heap for a Vec, and the length of what is left is asked, since no type says how long a lent slice is.
ghost use Rattle.std.specs.Prelude.{◌≡◌, [], ◌∷◌, ◌+◌, ◌≤◌, ◌<◌, min, length, take, drop, OnOk};
ghost use Rattle.text.specs.Number.{decimal, literal};
ghost use Rattle.text.specs.Bytes.{bytes};
ghost use Rattle.text.specs.Format.{clause_words, cells, literals, record_of, value_cells, with_sizes, record_cells, line_cells, read_text};
ghost use Rattle.script.specs.Kinds.{cell_of};
ghost use Rattle.text.specs.Pieces.{words_left};
ghost use Rattle.text.specs.FormatLaws.{counted, good, Puts};
ghost use Rattle.text.specs.PutLaws.{field_of};
ghost use Rattle.text.specs.ReadLaws.{Read};
ghost use Rattle.text.specs.Limits.{max_cells};

use crate::number::{Variables, decimal};
use crate::pieces::{Lines, Words, cut};
use refusal::{Refusal, Rule};
use script::Kind;

const MAX_BYTES: usize = 1048576;

const MAX_CELLS: usize = 16384;

const MAX_VARS: u32 = 128;

// A text that was read: how many cells and records its script has. Counts, since the cells are the caller's slice.
#[derive(Clone, Copy, Debug, PartialEq, Eq)]
pub struct Script {
    pub cells: usize,
    pub records: usize,
}

// How many literals the words are.
fn count_literals(words: Words, vars: Variables) -> Result<usize, Rule>
    ensures { result ≡ counted 0 (literals vars.count (words_left words.entry)) }
{
    let mut count = 0;
    for word in words {
        vars.literal(word).ok_or(Rule::BadNumber)?;
        count += 1;
    }
    Ok(count)
}

// Stores the literals, up to the first word that is none.
fn put_literals(words: Words, vars: Variables, to: &mut [u32])
    requires { length (good vars.count (words_left words)) ≡ length to.old }
    ensures { to.new ≡ good vars.count (words_left words.entry) }
{
    let mut words = words;
    // By cells: of what a `zip` over `iter_mut` writes the proof learns nothing.
    for cell in to {
        let Some(literal) = words.next().and_then(|word| vars.literal(word)) else {
            return;
        };
        *cell = literal;
    }
}

// A record's kind, its count, its literals, which are the words, and `more` behind them. `words` and `vars` stand apart: an iterator of literals would
// have to stop at, and tell of, a word that is none.
fn put_record(
    kind: Kind,
    words: Words,
    vars: Variables,
    more: &[u32],
    rest: &mut [u32],
) -> Result<usize, Rule>
    requires rest_len { length rest.old ≤ max_cells }
    requires more_len { length more.now ≤ 1 }
    ensures { Puts (record_of (cell_of kind) more.now (literals vars.count (words_left words.entry))) rest.old rest.new result }
{
    let count = count_literals(words, vars)?;
    if rest.len() <= count || rest.len() - count < 2 + more.len() {
        return Err(Rule::LongText);
    }
    let end = 2 + count;
    rest[0] = kind as u32;
    rest[1] = count as u32;
    put_literals(words, vars, &mut rest[2..end]);
    let all = end + more.len();
    rest[end..all].copy_from_slice(more);
    Ok(all)
}

// The value of a line of the header.
fn read_field(line: &[u8], key: &[u8]) -> Result<u32, Rule>
    ensures { result ≡ field_of (value_cells key.now line.now) }
{
    let word = line.strip_prefix(key).ok_or(Rule::BadKey)?;
    decimal(word).ok_or(Rule::BadNumber)
}

fn put_cells(xs: &[u32], rest: &mut [u32]) -> Result<usize, Rule>
    ensures { Puts (cells xs.now) rest.old rest.new result }
{
    let n = xs.len();
    if rest.len() < n {
        return Err(Rule::LongText);
    }
    rest[..n].copy_from_slice(xs);
    Ok(n)
}

fn put_field(line: &[u8], key: &[u8], rest: &mut [u32]) -> Result<usize, Rule>
    ensures { Puts (value_cells key.now line.now) rest.old rest.new result }
{
    let value = read_field(line, key)?;
    put_cells(&[value], rest)
}

// V, C and L.
fn put_vars(line: &[u8], key: &[u8], rest: &mut [u32]) -> Result<usize, Rule>
    ensures { Puts (with_sizes (value_cells key.now line.now)) rest.old rest.new result }
{
    let vars = read_field(line, key)?;
    if MAX_VARS < vars {
        return Err(Rule::LongText);
    }
    put_cells(&[vars, 512, 4096], rest)
}

// A clause's words; none if the line ends behind its key.
#[tactic(auto, unfolding(crate::specs::Format::clause_words))]
fn clause_words(body: &[u8]) -> Words<'_>
    ensures { words_left result ≡ clause_words body.now }
{
    let left = if body.is_empty() { None } else { Some(body) };
    Words { left }
}

// A line behind the header.
fn put_record_line(line: &[u8], vars: Variables, rest: &mut [u32]) -> Result<usize, Rule>
    requires { length rest.old ≤ max_cells }
    ensures { Puts (record_cells vars.count line.now) rest.old rest.new result }
{
    if let Some(body) = line.strip_prefix(b"clause=") {
        return put_record(Kind::Clause, clause_words(body), vars, &[], rest);
    }
    let body = line.strip_prefix(b"solve=").ok_or(Rule::BadKey)?;
    let (word, left) = cut(body, b' ');
    let budget = decimal(word).ok_or(Rule::BadNumber)?;
    put_record(Kind::Solve, Words { left }, vars, &[budget], rest)
}

// Line n, from 1: by its number, since that is what says which key a line must have (docs/FORMAT.md).
fn put_line(line: &[u8], n: usize, vars: Variables, rest: &mut [u32]) -> Result<usize, Rule>
    requires { length rest.old ≤ max_cells }
    ensures { Puts (line_cells n vars.count line.now) rest.old rest.new result }
{
    match n {
        1 => put_vars(line, b"vars=", rest),
        2 => put_field(line, b"mode=", rest),
        3 => put_field(line, b"phase=", rest),
        4 => put_field(line, b"unit=", rest),
        _ => put_record_line(line, vars, rest),
    }
}

// Reads a text into a script of at most 16,384 cells, or as many as it is lent. Of a refused text the cells of the lines before are stored. The rest of
// the slice stays as it was.
pub fn read(text: &[u8], script: &mut [u32]) -> Result<Script, Refusal>
    ensures { Read (read_text (min max_cells (length script.old)) text.now) script.old script.new result }
{
    if MAX_BYTES < text.len() {
        return Err(Refusal {
            rule: Rule::LongText,
            place: 0,
        });
    }
    let room = script.len().min(MAX_CELLS);
    let mut vars = 0;
    // The line to come; behind the last it says how many there were.
    let mut n = 1;
    let mut used = 0;
    let lines = Lines { left: text };
    for line in lines {
        let rest = &mut script[used..room];
        used += put_line(line, n, Variables { count: vars }, rest).map_err(|rule| Refusal {
            rule,
            place: n as u64,
        })?;
        vars = script[0];
        n += 1;
    }
    if n < 5 {
        return Err(Refusal {
            rule: Rule::BadKey,
            place: n as u64,
        });
    }
    Ok(Script {
        cells: used,
        records: n - 5,
    })
}

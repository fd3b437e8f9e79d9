// The bench program of document 01: reads a text of clauses and solves from standard input, runs it, and writes the answers, or why the text is refused.
#![tactic(auto)]

ghost use Rattle.std.specs.Prelude.{◌≤◌, ◌<◌, ◌≡◌, length, take, IfSome, IfOk, IfErr, OnOk};
ghost use Rattle.std.specs.Io.KnownBytes.{Keeps, Appends};
ghost use Rattle.text.specs.Limits.{max_cells, max_bytes};
ghost use Rattle.refusal.specs.Number.{number};
ghost use Rattle.text.specs.Format.{read_text, record_lines};
ghost use Rattle.text.specs.Answers.{printed_refusal, printed};
ghost use Rattle.loadsat.specs.Bench.{shown, output, Printed};
ghost use Rattle.loadsat.specs.Responses.{IfUnread};

use refusal::Refusal;
use std::io;
use std::io::{Read, Write};
use text::{complain, filled};

// What `out` holds for the records of a script, each of which stands on a line of its text. That `text` has room for the longest answers is asked,
// here and below: it is lent, and no type says how long a lent slice is.
fn print(script: &[u32], out: &[u32], text: &mut [u8]) -> usize
    requires { (length script.now ≤ max_cells) × (length out.now ≤ max_cells) × (max_bytes ≤ length text.old) }
    ensures { Printed text.old (printed script.now (record_lines max_cells) out.now) text.new result }
{
    let mut lines = filled::<u32, 16384>(0);
    text::number_lines(&mut lines);
    text::print(script, &lines, out, text)
}

// The cells that a text is run in, with room for 128 variables, 512 clauses and 4,096 literals.
#[derive(Drop)]
struct Workspace {
    script: [u32; 16384],
    work: [u32; 12352],
    activities: [f64; 128],
    out: [u32; 16384],
}

impl Workspace {
    // A text's answers, or why it or its script is turned back.
    fn answer(&mut self, input: &[u8], text: &mut [u8]) -> Result<usize, Refusal>
        requires { max_bytes ≤ length text.old }
        ensures answers { IfOk result (λ n. Printed text.old (shown self.old.work self.old.activities self.old.out (read_text max_cells input.now)) text.new n) }
        ensures refusal { IfErr result (λ f. (text.new ≡ text.old) × (printed_refusal (number f.rule) f.place ≡ shown self.old.work self.old.activities self.old.out (read_text max_cells input.now))) }
    {
        let read = text::read(input, &mut self.script)?;
        let script = &self.script[..read.cells];
        engine::run(script, &mut self.work, &mut self.activities, &mut self.out)?;
        Ok(print(script, &self.out, text))
    }
}

// What is written for an input.
fn bench(input: &[u8], text: &mut [u8]) -> usize
    requires { max_bytes ≤ length text.old }
    ensures { Printed text.old (output input.now) text.new result }
{
    let mut workspace = Workspace {
        script: filled(0),
        work: filled(0),
        activities: filled(0.0),
        out: filled(0),
    };
    match workspace.answer(input, text) {
        Ok(n) => n,
        Err(refusal) => text::print_refused(refusal, text),
    }
}

// Reads to the input's end, or until the slice is full: how many bytes. What came before a read that fails is no input.
// By hand, since `read_to_end` fills a Vec, and there is no heap.
fn read_all<R: Read>(from: &mut R, input: &mut [u8]) -> io::Result<usize>
    ensures within { IfOk result (λ n. n ≤ length input.new) }
    ensures bytes { IfSome (R.remaining from.old) (λ xs. IfOk result (λ n. take n input.new ≡ take (length input.new) xs)) }
{
    let mut n = 0;
    while n < input.len() {
        let k = from.read(&mut input[n..])?;
        if k == 0 {
            return Ok(n);
        }
        n += k;
    }
    Ok(n)
}

// Why an input has no answers, or not all: it could not be read to its end, and nothing was written; or they could not be written to their end.
#[derive(Clone, Copy)]
enum Failure {
    Unread,
    Unwritten,
}

impl Failure {
    // The sentences are told to people: no clause says them again.
    fn message(self) -> &'static str {
        match self {
            Failure::Unread =>
                "loadsat: the input could not be read to its end, and is not answered\n",
            Failure::Unwritten => "loadsat: the answers could not be written to their end\n",
        }
    }
}

// Of a text that is too long, more is read than a text may have, so that it is seen to be too long.
fn respond<R: Read, W: Write>(
    from: &mut R,
    to: &mut W,
    input: &mut [u8],
    text: &mut [u8],
) -> Result<(), Failure>
    requires { (max_bytes < length input.old) × (max_bytes ≤ length text.old) }
    ensures silent { IfErr result (IfUnread (Keeps (W.contents to.old) (W.contents to.new))) }
    ensures answers { IfSome (R.remaining from.old) (λ xs. OnOk result (Appends (W.contents to.old) (W.contents to.new) (output xs))) }
{
    let n = read_all(from, input).map_err(|_| Failure::Unread)?;
    let m = bench(&input[..n], text);
    to.write_all(&text[..m]).map_err(|_| Failure::Unwritten)
}

// An input that cannot be read to its end is not answered: nothing is written where the answers go.
fn serve<R: Read, W: Write>(
    rt: &impl Eprint,
    from: &mut R,
    to: &mut W,
    input: &mut [u8],
    text: &mut [u8],
)
    requires { (max_bytes < length input.old) × (max_bytes ≤ length text.old) }
{
    if let Err(failure) = respond(from, to, input, text) {
        complain(rt, failure.message());
    }
}

// From standard input to standard output.
fn main(rt: HostRuntime) {
    let mut input = filled::<u8, 1048577>(0);
    let mut text = filled::<u8, 1048576>(0);
    serve(
        &rt,
        &mut rt.stdin(),
        &mut rt.stdout(),
        &mut input,
        &mut text,
    );
}

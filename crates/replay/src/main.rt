// Runs scripts with known answers over slices full of noise, and compares every cell that the run writes, clears or must leave alone.
//
// Standard input is made of lines. `group` and a title opens a group. Every other line is a script: a name, then numbers with one blank between them: the
// lengths of work, activities and out; the number and the place of the refusal, or 0 and 0; how many cells the script has; these cells; the out cells.
#![tactic(auto)]

ghost use Rattle.std.specs.Prelude.{◌≡◌, ℕ, ◌+◌, ◌^◌, ◌<◌, ◌≤◌, ◌++◌, ◌==◌, ◌&&◌, Bool, length, take, drop, replicate};
ghost use Rattle.std.specs.Cmp.Lexicographic.{pointwise};
ghost use Rattle.std.specs.List.{list_all};
ghost use Rattle.model.specs.Script.{header};
ghost use Rattle.refusal.specs.Number.{number as the_number};
ghost use Rattle.text.specs.Split.{lines};
ghost use Rattle.replay.specs.Lines.{line_numbers, line_holds, one, added, all_scripts, tallied, Grouped};
ghost use Rattle.replay.specs.Vector.{cleared, is_run, untouched, passes, vector_holds};
ghost use Rattle.replay.specs.Cells.{noise, noises, noise_cells, noise_floats, float, like, same};
ghost use Rattle.replay.specs.Exact.{Exactly, Any, numbers_alike, Known, floats_alike};

use refusal::Refusal;
use std::io::Read;
use std::marker::Model;

// ---- noise: never 0, and never the same in two cells next to each other

fn noise(i: usize) -> u32
    ensures { result ≡ noise i }
{
    (i % 65521) as u32 * 65537 + 7
}

// What a slice is made of: a number can be written to a cell, and two cells be compared.
trait Cell: Copy {
    ghost of: { ℕ → Self };

    ghost like: { Self → Self → Bool };

    ghost Known: { Self → Type 0 };

    // A number as a cell.
    fn of(x: u32) -> Self
        ensures { result ≡ of x };

    fn is_like(self, other: Self) -> bool
        ensures { result ≡ like self other };

    // Known cells, such as those that numbers were written to, are like one another only where they are the same.
    ghost alike: { Exactly of like Known };
}

impl Cell for u32 {
    ghost of = { λ n. n };

    ghost like = { λ x y. x == y };

    ghost Known = { Any };

    ghost alike = { numbers_alike };

    fn of(x: u32) -> u32 {
        x
    }

    fn is_like(self, other: u32) -> bool {
        self == other
    }
}

impl Cell for f64 {
    ghost of = { float };

    ghost like = { like };

    ghost Known = { Known };

    ghost alike = { floats_alike };

    fn of(x: u32) -> f64 {
        f64::from(x)
    }

    // Bit by bit, since `==` holds of 0.0 and -0.0; a NaN is like nothing.
    #[tactic(auto, using(crate::specs::CellLaws::like_is))]
    fn is_like(self, other: f64) -> bool {
        !self.is_nan() && !other.is_nan() && self.to_bits() == other.to_bits()
    }
}

fn fill<T: Cell>(s: &mut [T])
    ensures { s.new ≡ noises T.of (length s.old) }
{
    for (i, cell) in s.iter_mut().enumerate() {
        *cell = T::of(noise(i));
    }
}

// ---- comparing

// Whether all cells behind the first n are noise. The slice stays whole, since noise is by place.
fn is_noise<T: Cell>(s: &[T], n: usize) -> bool
    ensures { result ≡ pointwise T.like (drop n s.now) (drop n (noises T.of (length s.now))) }
{
    s.iter()
        .enumerate()
        .skip(n)
        .all(|(i, x)| x.is_like(T::of(noise(i))))
}

fn is_zero<T: Cell>(s: &[T]) -> bool
    ensures { result ≡ list_all (λ x. T.like x (T.of 0)) s.now }
{
    s.iter().all(|x| x.is_like(T::of(0)))
}

// Whether the first n cells are 0, and those behind them noise. There may be fewer than n.
fn is_clear<T: Cell>(s: &[T], n: usize) -> bool
    ensures { result ≡ pointwise T.like s.now (replicate n (T.of 0) ++ drop n (noises T.of (length s.now))) }
{
    if s.len() < n {
        return false;
    }
    is_zero(&s[..n]) && is_noise(s, n)
}

// Whether a slice begins with these cells, and is noise behind them.
fn is_out(s: &[u32], first: &[u32]) -> bool
    ensures { result ≡ same s.now (first.now ++ drop (length first.now) (noise_cells (length s.now))) }
{
    s.starts_with(first) && is_noise(s, first.len())
}

// ---- a script

// The work cells that a run of the script clears.
fn cleared(script: &[u32]) -> usize
    ensures { result ≡ cleared script.now }
{
    if script.len() < 6 {
        return 0;
    }
    engine::engine_work_len(script[0], script[1], script[2]) as usize
}

// The variables of a script, none where it has no cells.
fn variables(script: &[u32]) -> usize
    ensures { result ≡ (header script.now).variables }
{
    script.first().copied().unwrap_or(0) as usize
}

// Whether a refusal has this number and this place.
fn is_refusal(refused: Refusal, number: u32, place: u32) -> bool
    ensures { result ≡ (number == the_number refused.rule && place == refused.place) }
{
    number == refused.rule.number() && u64::from(place) == refused.place
}

// The slices that a script runs over.
#[derive(Drop)]
struct Slices<'a> {
    work: &'a mut [u32],
    activities: &'a mut [f64],
    out: &'a mut [u32],
}

impl Slices<'_> {
    // All of them full of noise.
    fn fill(&mut self)
        ensures work { self.new.work.now ≡ noise_cells (length self.old.work.now) }
        ensures activities { self.new.activities.now ≡ noise_floats (length self.old.activities.now) }
        ensures out { self.new.out.now ≡ noise_cells (length self.old.out.now) }
    {
        fill(self.work);
        fill(self.activities);
        fill(self.out);
    }

    // Whether a run that wrote n out cells left the slices so.
    #[tactic(auto, using(crate::specs::VectorLaws::is_run_tests))]
    fn is_run(&self, script: &[u32], want: &[u32], n: u64) -> bool
        ensures { result ≡ is_run script.now want.now n self.now.work.now self.now.activities.now self.now.out.now }
    {
        n == want.len() as u64
            && is_clear(self.work, cleared(script))
            && is_clear(self.activities, variables(script))
            && is_out(self.out, want)
    }

    // Whether the slices are as they were.
    #[tactic(auto, unfolding(crate::specs::Vector::untouched))]
    fn is_untouched(&self) -> bool
        ensures { result ≡ untouched self.now.work.now self.now.activities.now self.now.out.now }
    {
        is_noise(self.work, 0) && is_noise(self.activities, 0) && is_noise(self.out, 0)
    }

    // Whether a script gives the refusal, or the out cells, that are wanted.
    // The refusal stays two numbers: 0 stands for none, a number that is no rule's has to fail, and both are only compared.
    fn gives(&mut self, script: &[u32], refusal: u32, refused_at: u32, want: &[u32]) -> bool
        ensures { result ≡ passes script.now refusal refused_at want.now (length self.old.work.now) (length self.old.activities.now) (length self.old.out.now) }
    {
        self.fill();
        match engine::run(script, self.work, self.activities, self.out) {
            Ok(cells) => refusal == 0 && self.is_run(script, want, cells),
            Err(refused) => is_refusal(refused, refusal, refused_at) && self.is_untouched(),
        }
    }
}

// Whether the numbers of a line hold; false if they ask for more than there is.
// The slices stand one by one here and in `line_holds`: as methods of `Slices` and of `Room`, which would lend parts of their fields, the borrow checker
// did not take them.
#[tactic(auto, unfolding(crate::specs::Vector::vector_holds))]
fn holds(numbers: &[u32], work: &mut [u32], activities: &mut [f64], out: &mut [u32]) -> bool
    ensures { result ≡ vector_holds numbers.now (length work.old) (length activities.old) (length out.old) }
{
    let [w, a, o, refusal, refused_at, count, cells @ ..] = numbers else {
        return false;
    };
    let w = *w as usize;
    let a = *a as usize;
    let o = *o as usize;
    let count = *count as usize;
    if work.len() < w || activities.len() < a || out.len() < o || cells.len() < count {
        return false;
    }
    let mut slices = Slices {
        work: &mut work[..w],
        activities: &mut activities[..a],
        out: &mut out[..o],
    };
    slices.gives(&cells[..count], *refusal, *refused_at, &cells[count..])
}

// ---- the text

// Stores the numbers behind the name of a line: 0 of them if a word is no number, or they do not fit. A line without numbers does not hold either, so no Option.
fn numbers(line: &[u8], cells: &mut [u32]) -> usize
    ensures { (result ≤ length cells.new) × (take result cells.new ≡ line_numbers (length cells.old) line.now) }
{
    let (_, mut left) = text::cut(line, b' ');
    for (k, cell) in cells.iter_mut().enumerate() {
        let Some(words) = left else {
            return k;
        };
        let (word, behind) = text::cut(words, b' ');
        let Some(x) = text::decimal(word) else {
            return 0;
        };
        *cell = x;
        left = behind;
    }
    match left {
        Some(_) => 0,
        None => cells.len(),
    }
}

// Whether a line is a vector that holds.
fn line_holds(
    line: &[u8],
    cells: &mut [u32],
    work: &mut [u32],
    activities: &mut [f64],
    out: &mut [u32],
) -> bool
    ensures { result ≡ line_holds record { cells = length cells.old; work = length work.old; activities = length activities.old; out = length out.old } line.now }
{
    let n = numbers(line, cells);
    holds(&cells[..n], work, activities, out)
}

// How many scripts gave what they should, and how many did not.
#[derive(Clone, Copy, Default)]
struct Tally {
    passed: u64,
    failed: u64,
}

// A function and no `Add`: the `impl` would be longer, and `+` would not show that it wraps.
fn sum(a: Tally, b: Tally) -> Tally
    ensures { result ≡ added a b }
{
    Tally {
        passed: a.passed.wrapping_add(b.passed),
        failed: a.failed.wrapping_add(b.failed),
    }
}

// What cannot be written is left out: the gate then finds that it is missing.
fn show(rt: &impl Print, title: &[u8], t: Tally) {
    let _ = rt.write_all(title);
    let passed = t.passed;
    let failed = t.failed;
    let _ = println!(rt; ": {passed} passed, {failed} failed");
}

fn show_failed(rt: &impl Print, line: &[u8]) {
    let (name, _) = text::cut(line, b' ');
    let _ = rt.print("FAILED ");
    let _ = rt.write_all(name);
    let _ = println!(rt);
}

// The cells for a line's numbers, and the slices that scripts run over, of which a `Slices` has the parts that a script asks for.
// A contract sees how long they are.
#[derive(Drop)]
struct Room<'a> {
    cells: &'a mut [u32],
    work: &'a mut [u32],
    activities: &'a mut [f64],
    out: &'a mut [u32],
}

impl<'a> Model for Room<'a> {
    ghost use Rattle.std.specs.Prelude.{length};
    ghost use Rattle.replay.specs.Lines.{Lengths};

    ghost Value = { Lengths };

    ghost view = { λ r. record { cells = length r.cells.now; work = length r.work.now; activities = length r.activities.now; out = length r.out.now } };
}

impl Room<'_> {
    // One script.
    fn script(&mut self, rt: &impl Print, line: &[u8]) -> Tally
        ensures tally { result ≡ one (line_holds self.old line.now) }
        ensures room { self.new ≡ self.old }
    {
        if line_holds(line, self.cells, self.work, self.activities, self.out) {
            return Tally {
                passed: 1,
                failed: 0,
            };
        }
        show_failed(rt, line);
        Tally {
            passed: 0,
            failed: 1,
        }
    }

    // The scripts up to the next group, and the text from it on. By `cut`: a group ends before a line that the next one has to see, and an iterator
    // would have taken it.
    fn group<'t>(&mut self, rt: &impl Print, input: &'t [u8]) -> (Tally, &'t [u8])
        ensures grouped { Grouped (line_holds self.old) input.now result.1.now result.0 }
        ensures room { self.new ≡ self.old }
    {
        let mut t = Tally::default();
        let mut left = input;
        while !left.is_empty() {
            let (line, behind) = text::cut(left, b'\n');
            if line.starts_with(b"group ") {
                return (t, left);
            }
            t = sum(t, self.script(rt, line));
            left = behind.unwrap_or(&[]);
        }
        (t, left)
    }

    // All groups, a line for each; and all of them counted.
    fn groups(&mut self, rt: &impl Print, input: &[u8]) -> Tally
        ensures tally { result ≡ tallied (line_holds self.old) (all_scripts (lines input.now)) }
        ensures room { self.new ≡ self.old }
    {
        let mut all = Tally::default();
        let mut left = input;
        while !left.is_empty() {
            let (title, behind) = text::cut(left, b'\n');
            let (t, next) = self.group(rt, behind.unwrap_or(&[]));
            show(rt, title, t);
            all = sum(all, t);
            left = next;
        }
        all
    }

    fn replay(&mut self, rt: &impl Print, input: &[u8])
        ensures { self.new ≡ self.old }
    {
        let all = self.groups(rt, input);
        show(rt, b"all", all);
    }
}

// Reads until the slice is full, the input ends or a read fails, after which `read_all` of crate loadsat gives up and this does not:
// how many bytes were put at the start of the slice. By hand, since `read_to_end` fills a Vec, and there is no heap.
fn read_full<R: Read>(from: &mut R, input: &mut [u8]) -> usize
    ensures { result ≤ length input.new }
{
    let mut n = 0;
    while n < input.len() {
        let Ok(k) = from.read(&mut input[n..]) else {
            break;
        };
        if k == 0 {
            break;
        }
        n += k;
    }
    n
}

// From where the input comes, which must leave a byte of its slice free: else it may be cut off.
fn serve<R: Read>(rt: &impl Print, from: &mut R, input: &mut [u8], room: &mut Room) {
    let n = read_full(from, input);
    if n == input.len() {
        let _ = rt.println("too long");
        return;
    }
    room.replay(rt, &input[..n]);
}

// The same, with slices of so many cells. A proof does not spell out arrays whose lengths are parameters.
fn serve_with<
    P: Print,
    R: Read,
    const INPUT: usize,
    const CELLS: usize,
    const WORK: usize,
    const ACTIVITIES: usize,
>(rt: &P, from: &mut R)
    requires { (INPUT < 2 ^ 32) × (CELLS < 2 ^ 32) × (WORK < 2 ^ 32) × (ACTIVITIES < 2 ^ 32) }
{
    let mut input = [0u8; INPUT];
    let mut cells = [0u32; CELLS];
    let mut work = [0u32; WORK];
    let mut activities = [0.0f64; ACTIVITIES];
    let mut out = [0u32; CELLS];
    let mut room = Room {
        cells: &mut cells,
        work: &mut work,
        activities: &mut activities,
        out: &mut out,
    };
    serve(rt, from, &mut input, &mut room);
}

fn main(rt: HostRuntime) {
    // the work cells and the activities: the most that a script can ask for, and 16 behind it
    serve_with::<_, _, 524288, 16384, 1704008, 4112>(&rt, &mut rt.stdin());
}

// The reading of a script: what is turned back, and the records of what is accepted.
#![tactic(auto)]

ghost use Rattle.std.specs.Prelude.{◌≡◌, ◌+◌, ◌<◌, ◌^◌, ◌∷◌, [], min, length, IfOk};
ghost use Rattle.model.specs.Limits.{header_cells};
ghost use Rattle.model.specs.Script.{row, known, most_count, trailing, cost, literal_rows, out_rows, work_needed, slice_rows, header_rows, kind_of, read};
ghost use Rattle.model.specs.Script.{header as header_of};
ghost use Rattle.refusal.specs.Number.{number};
ghost use Rattle.script.specs.Judging.{Judged, reading_of};
ghost use Rattle.script.specs.Kinds.{cell_of, IsKindOf, record_of, literals_of, cells_of};
ghost use Rattle.script.specs.Walk.{record_at, RecordAt, head_rows, budget_rows, rows_at, rows_from};
ghost use Rattle.script.specs.Sound.{Readable, Readable-prop};
ghost use Rattle.script.specs.Front.{from_one, config_of};
ghost use Rattle.script.specs.Needs.{sized, within, out_len_of};

use options::{Mode, Phase};
use refusal::{Refusal, Rule};

// The limits of document 01.
pub const HEADER_CELLS: usize = 6;

pub const MAX_VARIABLES: u32 = 4096;

const MAX_CLAUSES: u32 = 65535;

const MAX_LITERALS: u32 = 1048576;

// A clause's count is at most this.
const LONGEST_CLAUSE: usize = 211;

const MAX_UNIT: u32 = 1000;

const MAX_BUDGET: u32 = 1000000;

const WORK_PER_VARIABLE: u64 = 32;

const WORK_PER_CLAUSE: u64 = 8;

const WORK_BESIDES: u64 = 64;

const SOLVE_BESIDES: u64 = 4;

const MAX_PLACE: u64 = 4294967295;

// A row of the table: what must hold, or else the refusal.
pub fn check(holds: bool, rule: Rule, place: u64) -> Result<(), Refusal>
    ensures { Judged result (row (number rule) holds place ∷ []) }
{
    if holds {
        return Ok(());
    }
    Err(Refusal { rule, place })
}

// ---- the header

// From 1 on, up to a limit: so many variables, literals or conflicts.
pub fn from_one(x: usize, high: usize) -> bool
    ensures { result ≡ from_one x high }
{
    1 <= x && x <= high
}

// The cells 0 to 5.
#[derive(Clone, Copy)]
pub struct Header {
    pub variables: u32,
    pub clauses: u32,
    pub literals: u32,
    pub mode: Mode,
    pub phase: Phase,
    pub unit: u32,
}

impl Header {
    // A script's header, if its rows hold.
    #[tactic(auto, unfolding(model::specs::Script::header))]
    fn read(script: &[u32]) -> Result<Header, Refusal>
        ensures judged { Judged result (header_rows (length script.now) (header_of script.now)) }
        ensures header { IfOk result (λ h. config_of h ≡ header_of script.now) }
    {
        let [variables, clauses, literals, mode, phase, unit, ..] = script else {
            return Err(Refusal {
                rule: Rule::ShortHeader,
                place: script.len() as u64,
            });
        };
        check(
            from_one(*variables as usize, MAX_VARIABLES as usize),
            Rule::BadVariables,
            0,
        )?;
        check(*clauses <= MAX_CLAUSES, Rule::BadLimits, 1)?;
        check(*literals <= MAX_LITERALS, Rule::BadLimits, 2)?;
        check(*mode <= Mode::Minimise as u32, Rule::BadOptions, 3)?;
        check(*phase <= Phase::Full as u32, Rule::BadOptions, 4)?;
        check(
            from_one(*unit as usize, MAX_UNIT as usize),
            Rule::BadOptions,
            5,
        )?;
        Ok(Header {
            variables: *variables,
            clauses: *clauses,
            literals: *literals,
            mode: Mode::from(*mode),
            phase: Phase::from(*phase),
            unit: *unit,
        })
    }

    // The work cells that a script with this header needs.
    pub fn work_len(self) -> u64
        ensures { result ≡ work_needed (config_of self) }
    {
        work_len(self.variables, self.clauses, self.literals)
    }

    // Rows 5 and 6.
    fn judge_slices(self, work: usize, activities: usize) -> Result<(), Refusal>
        ensures { Judged result (slice_rows (config_of self) work activities) }
    {
        let need = self.work_len();
        let v = u64::from(self.variables);
        check(need <= work as u64, Rule::ShortWork, need)?;
        check(v <= activities as u64, Rule::ShortActivities, v)
    }
}

// The work cells that a script of V variables, C stored clauses and L stored literals needs: of three numbers, since C asks before there is a header.
pub fn work_len(v: u32, c: u32, l: u32) -> u64
    ensures { result ≡ work_needed (sized v c l) }
{
    WORK_PER_VARIABLE * u64::from(v) + WORK_PER_CLAUSE * u64::from(c) + u64::from(l) + WORK_BESIDES
}

// ---- records

// The kinds of records, by their numbers in a script.
#[derive(Clone, Copy, Debug, PartialEq, Eq)]
pub enum Kind {
    Clause = 1,
    Solve = 2,
}

impl TryFrom<u32> for Kind {
    type Error = Rule;

    ghost try_from_gives = { IsKindOf };

    fn try_from(cell: u32) -> Result<Self, Rule> {
        match cell {
            1 => Ok(Kind::Clause),
            2 => Ok(Kind::Solve),
            _ => Err(Rule::BadRecord),
        }
    }
}

impl Kind {
    // The largest count, of V variables.
    #[tactic(auto, unfolding(model::specs::Script::most_count))]
    fn most_count(self, v: u32) -> usize
        ensures { result ≡ most_count (cell_of self) v }
    {
        let all = 2 * v as usize;
        match self {
            Kind::Clause => all.min(LONGEST_CLAUSE),
            Kind::Solve => all,
        }
    }

    // The cells behind the literals.
    #[tactic(auto, unfolding(model::specs::Script::trailing, model::specs::Script::limits))]
    fn trailing(self) -> usize
        ensures { result ≡ trailing (cell_of self) }
    {
        match self {
            Kind::Clause => 0,
            Kind::Solve => 1,
        }
    }

    // The out cells that an answer may need, of V variables.
    #[tactic(auto, unfolding(model::specs::Script::cost))]
    fn cost(self, v: u32) -> u64
        ensures { result ≡ cost (cell_of self) v }
    {
        match self {
            Kind::Clause => 1,
            Kind::Solve => u64::from(v) + SOLVE_BESIDES,
        }
    }
}

// A clause with its literals, or a solve with its assumptions and its budget of conflicts.
#[derive(Clone, Copy)]
pub enum Record<'a> {
    Clause(&'a [u32]),
    Solve { assumptions: &'a [u32], budget: u32 },
}

impl<'a> Record<'a> {
    // The record that begins at this cell. Here and in the rows below by its place in the whole script, since a refusal names the place.
    pub fn read(script: &'a [u32], at: usize) -> Record<'a>
        requires { RecordAt script.now at }
        ensures { record_of result ≡ record_at script.now at }
    {
        let end = at + 2 + script[at + 1] as usize;
        let literals = &script[at + 2..end];
        // By the number: of a record that holds it is a kind's, and `Kind::try_from` would leave an error to answer.
        if script[at] == Kind::Solve as u32 {
            return Record::Solve {
                assumptions: literals,
                budget: script[end],
            };
        }
        Record::Clause(literals)
    }

    #[tactic(auto, unfolding(model::specs::Script::kind_of))]
    pub fn kind(self) -> Kind
        ensures { cell_of result ≡ kind_of (record_of self.entry) }
    {
        match self {
            Record::Clause(_) => Kind::Clause,
            Record::Solve { .. } => Kind::Solve,
        }
    }

    fn literals(self) -> &'a [u32]
        ensures { result.now ≡ literals_of (record_of self.entry) }
    {
        match self {
            Record::Clause(literals) => literals,
            Record::Solve { assumptions, .. } => assumptions,
        }
    }

    // The cells that it takes in a script: by its two cases, since by `literals` and `Kind::trailing` they would be told twice.
    pub fn cells(self) -> usize
        ensures { result ≡ cells_of (record_of self.entry) }
    {
        match self {
            Record::Clause(literals) => 2 + literals.len(),
            Record::Solve { assumptions, .. } => 3 + assumptions.len(),
        }
    }

    // Row 11, for a budget at this cell.
    fn judge_budget(self, at: usize) -> Result<(), Refusal>
        ensures { Judged result (budget_rows (record_of self.entry) at) }
    {
        match self {
            Record::Clause(_) => Ok(()),
            Record::Solve { budget, .. } => check(budget <= MAX_BUDGET, Rule::BadBudget, at as u64),
        }
    }
}

// ---- the rows of a record

// Row 9 for each literal, of which the first stands at this cell.
fn judge_literals(literals: &[u32], first: usize, v: u32) -> Result<(), Refusal>
    requires { first + length literals.now < 2 ^ 64 }
    ensures { Judged result (literal_rows v first literals.now) }
{
    for (i, literal) in literals.iter().enumerate() {
        check(
            (*literal as usize) < 2 * v as usize,
            Rule::BadLiteral,
            (first + i) as u64,
        )?;
    }
    Ok(())
}

// Row 7.
fn judge_kind(cell: u32, at: usize) -> Result<Kind, Refusal>
    ensures judged { Judged result (row 7 (known cell) at ∷ []) }
    ensures kind { IfOk result (λ kind. cell_of kind ≡ cell) }
{
    // By a match: with `map_err` the proof of the first clause was not found.
    match Kind::try_from(cell) {
        Ok(kind) => Ok(kind),
        Err(rule) => Err(Refusal {
            rule,
            place: at as u64,
        }),
    }
}

// Rows 7, 8 and 10.
fn judge_head(script: &[u32], at: usize, v: u32) -> Result<(), Refusal>
    requires { at < length script.now }
    ensures { Judged result (head_rows v script.now at) }
{
    let end = script.len();
    let kind = judge_kind(script[at], at)?;
    check(at + 2 <= end, Rule::CutRecord, end as u64)?;
    let count = script[at + 1] as usize;
    check(count <= kind.most_count(v), Rule::BadCount, (at + 1) as u64)?;
    check(
        count + kind.trailing() <= end - (at + 2),
        Rule::CutRecord,
        end as u64,
    )
}

// The record that begins at a cell, if its rows hold.
fn judge_record(script: &[u32], at: usize, v: u32) -> Result<Record<'_>, Refusal>
    requires { at < length script.now }
    ensures judged { Judged result (rows_at v script.now at) }
    ensures record { IfOk result (λ r. (record_of r ≡ record_at script.now at) × RecordAt script.now at) }
{
    judge_head(script, at, v)?;
    let record = Record::read(script, at);
    let literals = record.literals();
    let first = at + 2;
    judge_literals(literals, first, v)?;
    record.judge_budget(first + literals.len())?;
    Ok(record)
}

// ---- the script

// A script with its header, whose records hold.
#[derive(Clone, Copy)]
pub struct Script<'a> {
    pub cells: &'a [u32],
    pub header: Header,
    ghost of_header: { config_of header ≡ header_of cells.now },
    ghost readable: { Readable header.variables cells.now header_cells } by { Readable-prop header.variables cells.now header_cells },
}

impl<'a> Script<'a> {
    ghost use Rattle.script.specs.Wanted.{need_of};

    // The script of these cells, if the rows of its records hold.
    fn walk(cells: &'a [u32], header: Header) -> Result<Script<'a>, Refusal>
        requires { config_of header ≡ header_of cells.now }
        ensures judged { Judged result (rows_from header.variables cells.now header_cells) }
        ensures script { IfOk result (λ s. (s.cells ≡ cells.entry) × (s.header ≡ header)) }
    {
        let mut at = HEADER_CELLS;
        // By cells: an iterator over records is for what is known to be readable.
        while at < cells.len() {
            let record = judge_record(cells, at, header.variables)?;
            at += record.cells();
        }
        Ok(Script { cells, header })
    }

    // The out cells that the records may need, if they are within the bound. The whole sum need not fit.
    fn out_need(self, bound: u64) -> Option<u64>
        ensures { result ≡ within (need_of self.entry) bound }
    {
        let mut at = HEADER_CELLS;
        let mut need: u64 = 0;
        // By cells: the iterator over a script's records stands in a crate above.
        while at < self.cells.len() {
            let record = Record::read(self.cells, at);
            let more = record.kind().cost(self.header.variables);
            if bound - need < more {
                return None;
            }
            need += more;
            at += record.cells();
        }
        Some(need)
    }

    // The same, or the bound where they need more.
    fn out_capped(self, bound: u64) -> u64
        ensures { result ≡ min (need_of self.entry) bound }
    {
        self.out_need(bound).unwrap_or(bound)
    }

    // Row 12.
    fn judge_out(self, out: usize) -> Result<(), Refusal>
        ensures { Judged result (out_rows (need_of self.entry) out) }
    {
        // By a match, and not by `check`: the place is counted only where the row does not hold.
        match self.out_need(out as u64) {
            Some(_) => Ok(()),
            None => Err(Refusal {
                rule: Rule::ShortOut,
                place: self.out_capped(MAX_PLACE),
            }),
        }
    }

    // The script of these cells, if it may run with slices of these lengths: else the first row of the table that does not hold.
    pub fn read(
        cells: &'a [u32],
        work: usize,
        activities: usize,
        out: usize,
    ) -> Result<Script<'a>, Refusal>
        ensures judged { reading_of cells.entry.now result ≡ read cells.entry.now work activities out }
        ensures script { IfOk result (λ s. s.cells ≡ cells.entry) }
    {
        let header = Header::read(cells)?;
        header.judge_slices(work, activities)?;
        let script = Script::walk(cells, header)?;
        script.judge_out(out)?;
        Ok(script)
    }
}

// The out cells that a script asks for, never more than the largest u64; 0 where its header or a record is turned back, since C takes no Option.
pub fn out_len(script: &[u32]) -> u64
    ensures { result ≡ out_len_of script.now }
{
    let Ok(header) = Header::read(script) else {
        return 0;
    };
    match Script::walk(script, header) {
        Ok(script) => script.out_capped(u64::MAX),
        Err(_) => 0,
    }
}

// The records of an accepted script in turn.
#![tactic(auto)]

ghost use Rattle.std.specs.Prelude.{◌≡◌, ◌++◌, length, drop, replicate};
ghost use Rattle.model.specs.Script.{header, work_needed};
ghost use Rattle.model.specs.State.{f64_zero};
ghost use Rattle.ends.specs.Bounds.{Limited};
ghost use Rattle.script.specs.Kinds.{record_of};
ghost use Rattle.script.specs.Front as script;
ghost use Rattle.script.specs.Accepted.{Accepted};
ghost use Rattle.state.specs.Still.{config_of};
ghost use Rattle.answer.specs.Answered.{Between};
ghost use Rattle.records.specs.Recording.{Fits, Stepped, Lent, Written};

use activity::Activities;
use reader::Records;
use script::{Header, Record, Script};
use search::{Query, Solver};
use state::{Config, State};

// What the script's header says: counts there, sizes of slices here. No `From`, since neither type is this crate's.
fn config(header: Header) -> Config
    ensures { config_of result ≡ script.config_of header }
{
    Config {
        vars: header.variables as usize,
        room: header.clauses as usize,
        lit_room: header.literals as usize,
        mode: header.mode,
        phase: header.phase,
        unit: header.unit,
    }
}

// A record; its answer goes to the front of out. The result is how many cells it has.
fn record(x: &mut Solver, r: Record, out: &mut [u32]) -> usize
    requires between { Between x.old }
    requires limited { Limited (config_of x.old.state.config) }
    requires fits { Fits x.old.state.config (record_of r) (length out.old) }
    ensures { Stepped (record_of r.entry) x.old x.new out.old out.new result }
{
    match r {
        Record::Clause(literals) => answer::clause(x, literals, out),
        Record::Solve {
            assumptions,
            budget,
        } => answer::solve(
            x,
            Query {
                assumptions,
                budget,
            },
            out,
        ),
    }
}

// All records, from the first state on; how many out cells were written.
fn records(script: Script, work: &mut [u32], act: &mut [f64], out: &mut [u32]) -> usize
    requires { Lent script (length work.old) (length act.old) (length out.old) }
    ensures { Written script.entry.cells.now out.old result out.new }
{
    let mut x = Solver {
        state: State::new(config(script.header), work),
        activity: Activities::new(act),
    };
    let mut written = 0;
    // Counted, since the count is what is returned.
    for r in Records::new(script) {
        written += record(&mut x, r, &mut out[written..]);
    }
    written
}

// A run in the parts of work and activities that are the run's; they are zero afterwards.
fn run_in(script: Script, work: &mut [u32], act: &mut [f64], out: &mut [u32]) -> usize
    requires { Lent script (length work.old) (length act.old) (length out.old) }
    ensures written { Written script.entry.cells.now out.old result out.new }
    ensures work_after { work.new ≡ replicate (length work.old) 0 }
    ensures act_after { act.new ≡ replicate (length act.old) f64_zero }
{
    let n = records(script, work, act, out);
    work.fill(0);
    act.fill(0.0);
    n
}

// Runs an accepted script. It is lent only the cells that it asks for, so that the rest of work and activities is out of its reach.
pub fn run_accepted(
    script: Script,
    work: &mut [u32],
    activities: &mut [f64],
    out: &mut [u32],
) -> usize
    requires { Accepted script.cells.now (length work.old) (length activities.old) (length out.old) }
    ensures written { Written script.entry.cells.now out.old result out.new }
    ensures work_after { work.new ≡ replicate (work_needed (header script.entry.cells.now)) 0 ++ drop (work_needed (header script.entry.cells.now)) work.old }
    ensures activities_after { activities.new ≡ replicate (header script.entry.cells.now).variables f64_zero ++ drop (header script.entry.cells.now).variables activities.old }
{
    let n = script.header.variables as usize;
    let need = script.header.work_len() as usize;
    run_in(script, &mut work[..need], &mut activities[..n], out)
}

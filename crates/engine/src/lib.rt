// The run: a script judged, and its records in turn.
#![tactic(auto)]

ghost use Rattle.std.specs.Prelude.{◌≡◌};
ghost use Rattle.model.specs.Script.{work_needed};
ghost use Rattle.script.specs.Needs.{sized, out_len_of};
ghost use Rattle.counter.specs.Counter.{len_of};
ghost use Rattle.engine.specs.Runs.{answer_of, number_of, value_of, Runs, Gives};
ghost use Rattle.engine.specs.AtMost.{GivesAtMost};

use refusal::Refusal;
use script::Script;

// Runs a script, and returns how many out cells were written; or says why it is turned back. The three slices stand apart, here, below and in crate
// `records`: they are C's parameters, and of a struct of them the promise would have to say too that it still lends the same slices.
pub fn run(
    script: &[u32],
    work: &mut [u32],
    activities: &mut [f64],
    out: &mut [u32],
) -> Result<u64, Refusal>
    ensures { Runs script.now work.old activities.old out.old result work.new activities.new out.new }
{
    if script.is_empty() {
        return Ok(0);
    }
    let script = Script::read(script, work.len(), activities.len(), out.len())?;
    let cells = records::run_accepted(script, work, activities, out);
    Ok(cells as u64)
}

// An answer in numbers, since C takes no Result: refusal is 0 and the result the cells, or they are a refusal's number and place.
fn in_numbers(answer: Result<u64, Refusal>, refusal: &mut u32) -> u64
    ensures number { refusal.new ≡ number_of (answer_of answer) }
    ensures value { result ≡ value_of (answer_of answer) }
{
    match answer {
        Ok(cells) => {
            *refusal = 0;
            cells
        }
        Err(e) => {
            *refusal = e.rule.number();
            e.place
        }
    }
}

// `run` in numbers, as crate `engine_c` exports it: refusal is 0 and the answer the out cells written, or they are a refusal's number and place.
pub fn engine_run(
    script: &[u32],
    work: &mut [u32],
    activities: &mut [f64],
    out: &mut [u32],
    refusal: &mut u32,
) -> u64
    ensures { Gives script.now work.old activities.old out.old refusal.new result work.new activities.new out.new }
{
    in_numbers(run(script, work, activities, out), refusal)
}

// The work cells that a run asks for, of V variables, C clauses and L literals.
pub fn engine_work_len(v: u32, c: u32, l: u32) -> u64
    ensures { result ≡ work_needed (sized v c l) }
{
    script::work_len(v, c, l)
}

// The out cells that a script asks for; 0 where its header or a record is turned back, since C takes no Option.
pub fn engine_out_len(script: &[u32]) -> u64
    ensures { result ≡ out_len_of script.now }
{
    script::out_len(script)
}

// The clauses that say 'at most k of these literals', as records: refusal is 0 and the answer the cells written, or they are a refusal's number and place.
pub fn engine_at_most(
    v: u32,
    literals: &[u32],
    k: u32,
    first_helper: u32,
    out: &mut [u32],
    refusal: &mut u32,
) -> u64
    ensures { GivesAtMost v literals.now k first_helper out.old refusal.new result out.new }
{
    in_numbers(counter::at_most(v, literals, k, first_helper, out), refusal)
}

// The cells that the clauses for n literals take; 0 for more literals than a call may have, since C takes no Option.
pub fn engine_at_most_len(n: u32, k: u32) -> u64
    ensures { result ≡ len_of n k }
{
    counter::len(n, k)
}

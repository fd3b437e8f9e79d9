// The engine for C and Rust: what include/engine.h declares. Each function is the engine's of the same name, and says what that one says.
// A crate is a library or a static library, so what C calls stands in a crate of its own.
#![tactic(auto)]

ghost use Rattle.std.specs.Prelude.{◌≡◌};
ghost use Rattle.model.specs.Script.{work_needed};
ghost use Rattle.script.specs.Needs.{sized, out_len_of};
ghost use Rattle.counter.specs.Counter.{len_of};
ghost use Rattle.engine.specs.Runs.{Gives};
ghost use Rattle.engine.specs.AtMost.{GivesAtMost};

// Runs a script: refusal is 0 and the answer the out cells written, or they are a refusal's number and place.
#[unsafe(no_mangle)]
pub extern "C" fn engine_run(
    script: &[u32],
    work: &mut [u32],
    activities: &mut [f64],
    out: &mut [u32],
    refusal: &mut u32,
) -> u64
    ensures { Gives script.now work.old activities.old out.old refusal.new result work.new activities.new out.new }
{
    engine::engine_run(script, work, activities, out, refusal)
}

// The work cells that a run asks for, of V variables, C clauses and L literals.
#[unsafe(no_mangle)]
pub extern "C" fn engine_work_len(v: u32, c: u32, l: u32) -> u64
    ensures { result ≡ work_needed (sized v c l) }
{
    engine::engine_work_len(v, c, l)
}

// The out cells that a script asks for; 0 where its header or a record is turned back.
#[unsafe(no_mangle)]
pub extern "C" fn engine_out_len(script: &[u32]) -> u64
    ensures { result ≡ out_len_of script.now }
{
    engine::engine_out_len(script)
}

// The clauses that say 'at most k of these literals', as records: refusal is 0 and the answer the cells written, or they are a refusal's number and place.
#[unsafe(no_mangle)]
pub extern "C" fn engine_at_most(
    v: u32,
    literals: &[u32],
    k: u32,
    first_helper: u32,
    out: &mut [u32],
    refusal: &mut u32,
) -> u64
    ensures { GivesAtMost v literals.now k first_helper out.old refusal.new result out.new }
{
    engine::engine_at_most(v, literals, k, first_helper, out, refusal)
}

// The cells that the clauses for n literals take; 0 for more literals than a call may have.
#[unsafe(no_mangle)]
pub extern "C" fn engine_at_most_len(n: u32, k: u32) -> u64
    ensures { result ≡ len_of n k }
{
    engine::engine_at_most_len(n, k)
}

// Judges scripts, one for each number of the table and some that are accepted, and writes a line for each: the number and the place, or 'accepted'.
#![tactic(auto)]

use refusal::Refusal;
use script::Script;

// What cannot be written is left out: the gate then finds that it is missing.
fn show(rt: &impl Print, judged: Result<Script, Refusal>) {
    let _ = match judged {
        Err(refusal) => println!(rt; "{} {}", refusal.rule.number(), refusal.place),
        Ok(_) => println!(rt; "accepted"),
    };
}

// With slices that hold all that a script of 2 variables, 8 clauses and 64 literals needs, and an out of 8 cells.
fn show_small(rt: &impl Print, script: &[u32]) {
    show(rt, Script::read(script, 256, 2, 8));
}

fn headers(rt: &impl Print) {
    // 1: under 6 cells
    show_small(rt, &[2, 8, 64, 2, 2]);
    // 2: no variable, and one too many
    show_small(rt, &[0, 8, 64, 2, 2, 100]);
    show_small(rt, &[4097, 8, 64, 2, 2, 100]);
    // 3: clauses, then literals
    show_small(rt, &[2, 65536, 1048577, 2, 2, 100]);
    show_small(rt, &[2, 8, 1048577, 2, 2, 100]);
    // 4: mode, phase, unit
    show_small(rt, &[2, 8, 64, 3, 3, 0]);
    show_small(rt, &[2, 8, 64, 2, 3, 0]);
    show_small(rt, &[2, 8, 64, 2, 2, 0]);
    // 5: work, and 6: activities
    show_small(rt, &[2, 9, 64, 2, 2, 100]);
    show(rt, Script::read(&[2, 8, 64, 2, 2, 100], 256, 1, 8));
}

fn records(rt: &impl Print) {
    // 7: kind
    show_small(rt, &[2, 8, 64, 2, 2, 100, 3, 0]);
    // 8: no count, 10 before 8, and 8: cut off
    show_small(rt, &[2, 8, 64, 2, 2, 100, 1]);
    show_small(rt, &[2, 8, 64, 2, 2, 100, 1, 5]);
    show_small(rt, &[2, 8, 64, 2, 2, 100, 2, 1, 0]);
    // 9: the second literal
    show_small(rt, &[2, 8, 64, 2, 2, 100, 1, 2, 3, 4]);
    // 11: budget
    show_small(rt, &[2, 8, 64, 2, 2, 100, 2, 0, 1000001]);
    // 12: out
    show_small(rt, &[2, 8, 64, 2, 2, 100, 2, 0, 1, 1, 0, 1, 0, 1, 0]);
    // accepted: no record, 2 x V assumptions, and out just long enough
    show_small(rt, &[2, 8, 64, 2, 2, 100]);
    show_small(rt, &[2, 8, 64, 2, 2, 100, 2, 4, 0, 1, 2, 3, 1000000]);
    show_small(rt, &[2, 8, 64, 2, 2, 100, 2, 0, 1, 1, 0, 1, 0]);
}

fn main(rt: HostRuntime) {
    let cells = script::work_len(2, 8, 64);
    prove!(cells == 256);
    headers(&rt);
    records(&rt);
}

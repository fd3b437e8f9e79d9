// The text of the bench program: lines of keys and numbers, read as a script, and answers printed.
#![tactic(auto)]

mod kinds;
mod number;
mod pieces;
mod printer;
mod printing;
mod program;
mod reading;

pub use cells::Verdict;
pub use kinds::kind_of;
pub use number::{Variables, decimal};
pub use pieces::{Lines, Words, cut};
pub use printer::Printer;
pub use printing::{number_lines, print, print_refusal, print_refused};
pub use program::{complain, filled};
pub use reading::{Script, read};
pub use script::Kind;

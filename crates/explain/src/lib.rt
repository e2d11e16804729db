// A refusal in words: its fixed line, the rule, the offending line with a mark under the field, and what to do.
#![tactic(auto)]

mod advice;
pub mod elements;
pub mod faults;
mod kinds;
mod line;
pub mod names;
mod places;
pub mod refusals;

use refusal::Refusal;
use std::io;
use words::print;

// Prints a refusal of a report, and explains it.
pub fn refused(rt: &impl Print, report: &[u8], refusal: Refusal) -> io::Result<()> {
    print::refusal_line(rt, refusal)?;
    explain(rt, report, refusal)
}

// Prints the rule that a refusal of a report stands for, the line and what to do.
pub fn explain(rt: &impl Print, report: &[u8], refusal: Refusal) -> io::Result<()> {
    refusals::print_rule(rt, refusal.kind)?;
    match refusal.line.checked_sub(1) {
        Some(line) => places::print_place(rt, report, line, refusal),
        None => refusals::print_advice(rt, refusal.kind),
    }
}

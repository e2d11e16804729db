// The auditor's sheet: what is told of a report, of its packed report and of why that one is as long as it is. What the answers are, the
// crates below promise; here they are printed beside the theorems that hold them.
#![tactic(auto)]

mod costing;
mod length;
mod rows;
mod sameness;
pub mod sources;

use explain::refusals;
use refusal::Refusal;
use report::{ROW_LIMIT, TEXT_LIMIT};
use std::io;
use text::part::front;
use words::print;

// Prints which program made the sheet, and of which report: its name, its bytes and its observations.
pub fn print_heading(rt: &impl Print, name: &[u8], length: usize, count: usize) -> io::Result<()> {
    print_file(rt, name, length)?;
    println!(rt; ", {count} observations.")
}

// Prints which program made the sheet, and of which file of so many bytes.
fn print_file(rt: &impl Print, name: &[u8], length: usize) -> io::Result<()> {
    print!(rt; "Sheet of ")?;
    print::version(rt)?;
    print!(rt; ". Report: ")?;
    print::bytes(rt, name)?;
    print!(rt; ", {length} bytes")
}

// Prints the sheet of a refused report after its first line.
pub fn print_refused(
    rt: &impl Print,
    name: &[u8],
    report: &[u8],
    refusal: Refusal,
) -> io::Result<()> {
    print_file(rt, name, report.len())?;
    println!(rt; ".\n1. Is it a report? No. Its first fault, in the order of the rules:")?;
    explain::explain(rt, report, refusal)?;
    print!(rt; "   The rule is ")?;
    refusals::print_definition(rt, refusal.kind)?;
    print_proof_of_check(rt)?;
    println!(rt; "2. and 3. Nothing is packed of a refused report.")
}

// Prints that a report is accepted: the answer to the first question.
pub fn print_report(rt: &impl Print) -> io::Result<()> {
    println!(rt; "1. Is it a report? Yes.")?;
    print_proof_of_check(rt)
}

// Prints what is proved of the answer to the first question.
fn print_proof_of_check(rt: &impl Print) -> io::Result<()> {
    println!(rt;
        "   Proved of every text: `check` answers what `read` says (crates/report/specs/Report.antt)."
    )
}

// Prints the answers about the packed report of a report, the first after a question; nothing for a refused one.
pub fn print_packing(rt: &impl Print, report: &[u8], question: &[u8]) -> io::Result<()> {
    let mut cuts = [0u16; ROW_LIMIT];
    if let Ok(measured) = pack::measure(report, &mut cuts) {
        print_packed(rt, report, front(&cuts, measured.blocks), question)?;
    }
    Ok(())
}

// Prints the answers about the packed report that is written of a report by its cuts, the first after a question.
fn print_packed(rt: &impl Print, report: &[u8], cuts: &[u16], question: &[u8]) -> io::Result<()> {
    let mut output = [0u8; TEXT_LIMIT];
    if let Ok(length) = pack::write(report, cuts, &mut output) {
        let packed = front(&output, length);
        print::bytes(rt, question)?;
        sameness::print_same(rt, report, packed)?;
        length::print_length(rt, report, packed)?;
    }
    Ok(())
}

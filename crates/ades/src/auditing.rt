// `ades audit`: the auditor's sheet. It answers whether a report is accepted, whether it holds the observations of its sources, whether its
// packed report holds the same, and why that one is as long as it is.
use crate::command::{arguments, word};
use crate::file::SPACE;
use crate::status::Stop;
use crate::{file, sources};
use comparison::{Compared, compare};
use report::ROW_LIMIT;
use sheet::sources::Sources;
use std::io;
use std::rt::Runtime;
use words::print;

// Obeys `audit REPORT [FILE..]`.
pub(crate) fn obey(rt: &impl Runtime, command: &[u8]) -> Result<(), Stop> {
    let mut space = [0u8; SPACE];
    let name = word(command, 1);
    let report = file::read(rt, name, &mut space)?;
    match report::check(report) {
        Ok(count) if 1 < arguments(command) => print_against(rt, command, name, report, count),
        Ok(count) => Ok(print_alone(rt, name, report, count)?),
        Err(refusal) => {
            print::refusal_line(rt, refusal)?;
            sheet::print_refused(rt, name, report, refusal)?;
            Err(Stop::Refused)
        }
    }
}

// Prints the sheet of an accepted report alone.
fn print_alone(rt: &impl Print, name: &[u8], report: &[u8], count: usize) -> io::Result<()> {
    print::accepted_line(rt, count)?;
    sheet::print_heading(rt, name, report.len(), count)?;
    sheet::print_report(rt)?;
    sheet::print_packing(
        rt,
        report,
        b"2. Does the packed report hold the same observations in the same order? ",
    )
}

// Prints the sheet of an accepted report with its sources; stops where they differ.
fn print_against(
    rt: &impl Runtime,
    command: &[u8],
    name: &[u8],
    report: &[u8],
    count: usize,
) -> Result<(), Stop> {
    let mut space = [0u8; SPACE];
    let mut lengths = [0usize; ROW_LIMIT];
    let sources = sources::read(rt, command, &mut space, &mut lengths)?;
    let found = compare(sources.texts, report);
    print_compared(rt, name, report, count, sources, found)?;
    match found {
        Compared::Same(_) => Ok(()),
        _ => Err(Stop::Refused),
    }
}

// Prints the sheet of an accepted report with its sources, and what comparing these with it came to.
fn print_compared(
    rt: &impl Print,
    name: &[u8],
    report: &[u8],
    count: usize,
    sources: Sources,
    found: Compared,
) -> io::Result<()> {
    sheet::sources::print_first(rt, found)?;
    sheet::print_heading(rt, name, report.len(), count)?;
    sheet::sources::print_sources(rt, sources)?;
    sheet::print_report(rt)?;
    sheet::sources::print_answer(rt, name, report, sources, found)?;
    sheet::print_packing(
        rt,
        report,
        b"   Does its packed report hold the observations of the report, in the same order? ",
    )
}

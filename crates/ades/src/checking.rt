// `ades check`, `ades faults` and `ades list`: how many observations a report has, its faults, its observations.
use crate::command::{arguments, rest, word};
use crate::file::SPACE;
use crate::status::{Status, Stop};
use crate::{error, file};
use answers::list::print_list;
use explain::faults;
use std::rt::Runtime;
use words::print;

// Obeys `check FILE..`; the worst outcome counts.
pub(crate) fn obey(rt: &impl Runtime, command: &[u8]) -> Result<(), Stop> {
    let files = arguments(command);
    let several = 1 < files;
    let mut worst = Status::Done;
    let mut names = rest(command);
    for _ in 0..files {
        worst = worst.max(Status::of(check_file(rt, word(names, 0), several))?);
        names = rest(names);
    }
    worst.outcome()
}

// Checks a file; where it is one of several its name stands before the answer.
fn check_file(rt: &impl Runtime, name: &[u8], several: bool) -> Result<(), Stop> {
    let mut space = [0u8; SPACE];
    let report = file::read(rt, name, &mut space)?;
    if several {
        print::bytes(rt, name)?;
        print!(rt; ": ")?;
    }
    let observations = error::explained(rt, report, report::check(report))?;
    print::accepted_line(rt, observations)?;
    if !several {
        println!(rt; "The report has no fault.")?;
    }
    Ok(())
}

// Prints what checking a report comes to, and the faults after the first.
pub(crate) fn list_faults(rt: &impl Print, report: &[u8]) -> Result<(), Stop> {
    match report::check(report) {
        Ok(observations) => {
            print::accepted_line(rt, observations)?;
            println!(rt; "The report has no fault.")?;
            Ok(())
        }
        Err(refusal) => {
            faults::print_faults(rt, report, refusal)?;
            Err(Stop::Refused)
        }
    }
}

// Prints the observations of a report, or its refusal.
pub(crate) fn list(rt: &impl Print, report: &[u8]) -> Result<(), Stop> {
    let observations = error::explained(rt, report, report::check(report))?;
    print::accepted_line(rt, observations)?;
    print_list(rt, report)?;
    Ok(())
}

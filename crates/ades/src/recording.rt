// `ades night` and `ades records`: a report's night list written, and the records of a list told.
use crate::command::word;
use crate::status::Stop;
use crate::{error, file};
use answers::records;
use night::RECORD_SIZE;
use report::ROW_LIMIT;
use std::rt::Runtime;
use text::part::same;

// The most bytes of a list.
const LONGEST_LIST: usize = RECORD_SIZE * ROW_LIMIT;

// Writes the night list of the report that a command names to the list that it names, which may not have the report's name.
pub(crate) fn obey(rt: &impl Runtime, command: &[u8], report: &[u8]) -> Result<(), Stop> {
    let name = word(command, 2);
    if same(word(command, 1), name) & !same(name, b"-") {
        error::tell(rt, "the list would replace its report")?;
        return Err(Stop::Failed);
    }
    write_into(rt, name, report)
}

// Writes the night list of a report to a file, and tells how long it is; or tells the report's refusal, and writes nothing.
fn write_into(rt: &impl Runtime, name: &[u8], report: &[u8]) -> Result<(), Stop> {
    let mut space = [0u8; LONGEST_LIST];
    let count = error::explained(rt, report, report::check(report))?;
    let list = &mut space[..count.min(ROW_LIMIT) * RECORD_SIZE];
    fill(rt, report, count, list)?;
    file::write(rt, name, list)?;
    records::print_written(rt, count, list.len())?;
    Ok(())
}

// Writes the records of so many observations into the list, each by its own call, up to one that is refused.
fn fill(rt: &impl Print, report: &[u8], count: usize, list: &mut [u8]) -> Result<(), Stop> {
    for observation in 1..=count {
        if let Err(refusal) = night::write(report, observation, list) {
            records::print_unwritten(rt, report, observation, refusal)?;
            return Err(Stop::Refused);
        }
    }
    Ok(())
}

// Prints the records of a list, or its first bad one.
pub(crate) fn tell(rt: &impl Print, list: &[u8]) -> Result<(), Stop> {
    match night::check(list) {
        Ok(count) => {
            records::print_records(rt, list, count)?;
            Ok(())
        }
        Err(refusal) => {
            records::print_refused(rt, list, refusal)?;
            Err(Stop::Refused)
        }
    }
}

// `ades length` and `ades pack`: the shortest report of the same observations, measured, and written by its cuts.
use crate::status::Stop;
use crate::{error, file};
use answers::packed::{print_length, print_packed};
use report::{ROW_LIMIT, TEXT_LIMIT};
use std::rt::Runtime;
use text::part::front;

// Tells how long the packed report of a report is, and what it saves; or tells the report's refusal.
pub(crate) fn tell_length(rt: &impl Print, report: &[u8]) -> Result<(), Stop> {
    let mut cuts = [0u16; ROW_LIMIT];
    let measured = error::explained(rt, report, pack::measure(report, &mut cuts))?;
    print_length(
        rt,
        measured.length,
        report.len(),
        front(&cuts, measured.blocks),
    )?;
    Ok(())
}

// Packs a report into a file, and tells how long it was and is; or tells its refusal, and writes nothing.
pub(crate) fn pack_into(rt: &impl Runtime, name: &[u8], report: &[u8]) -> Result<(), Stop> {
    let mut space = [0u16; ROW_LIMIT];
    let mut output = [0u8; TEXT_LIMIT];
    let measured = error::explained(rt, report, pack::measure(report, &mut space))?;
    let cuts = front(&space, measured.blocks);
    let length = error::explained(rt, report, pack::write(report, cuts, &mut output))?;
    file::write(rt, name, front(&output, length))?;
    print_packed(rt, length, report.len(), cuts)?;
    Ok(())
}

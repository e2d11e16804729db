// `ades show`: a value's own bytes.
use crate::status::Stop;
use crate::{error, request};
use answers::shown;

// Obeys `show FILE OBSERVATION ELEMENT` of the report that the file holds.
pub(crate) fn obey(rt: &impl Print, command: &[u8], report: &[u8]) -> Result<(), Stop> {
    let asked = request::asked(rt, command)?;
    let showing = report::showing(report, asked.observation, asked.element);
    match error::explained(rt, report, showing)? {
        Some(value) => shown::print_shown(rt, report, asked, value)?,
        None => shown::print_absent(rt, asked)?,
    }
    Ok(())
}

// `ades value`: a value as an exact number.
use crate::status::Stop;
use crate::{error, request};
use answers::valued::print_valued;

// Obeys `value FILE OBSERVATION ELEMENT` of the report that the file holds.
pub(crate) fn obey(rt: &impl Print, command: &[u8], report: &[u8]) -> Result<(), Stop> {
    let asked = request::asked(rt, command)?;
    let answer = report::value(report, asked.observation, asked.element);
    let value = error::explained(rt, report, answer)?;
    print_valued(rt, Ok(value), asked)?;
    Ok(())
}

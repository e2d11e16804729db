// What went wrong with a command, told in a line that begins with `error`, and refusals explained.
use crate::commands::Usage;
use crate::status::Stop;
use refusal::Refusal;
use std::io;
use words::print;

// Tells what went wrong.
pub(crate) fn tell(rt: &impl Print, what: &str) -> io::Result<()> {
    println!(rt; "error {what}")
}

// Tells what went wrong, and what it is about.
pub(crate) fn tell_about(rt: &impl Print, what: &str, name: &[u8]) -> io::Result<()> {
    print!(rt; "error {what}")?;
    print::bytes(rt, name)?;
    print::line_end(rt)
}

// Tells how a command is used.
pub(crate) fn tell_usage(rt: &impl Print, usage: &Usage) -> io::Result<()> {
    println!(rt; "error usage: {usage}")
}

// What was answered about a report; a refusal is explained.
pub(crate) fn explained<T>(
    rt: &impl Print,
    report: &[u8],
    answer: Result<T, Refusal>,
) -> Result<T, Stop> {
    match answer {
        Ok(value) => Ok(value),
        Err(refusal) => {
            explain::refused(rt, report, refusal)?;
            Err(Stop::Refused)
        }
    }
}

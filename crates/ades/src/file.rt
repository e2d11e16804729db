// Files read whole and written, and what went wrong with them told.
use crate::error;
use crate::status::Stop;
use files::NotWritten;
use report::TEXT_LIMIT;
use std::io;
use std::rt::Runtime;
use text::part::front;
use words::print;

// The room for a text: one byte more than a report may have, so that a longer one is seen.
pub(crate) const SPACE: usize = TEXT_LIMIT + 1;

// The text of a file, or of standard input for `-`, read into the space, as much as there is room for.
pub(crate) fn read<'a>(
    rt: &impl Runtime,
    name: &[u8],
    space: &'a mut [u8],
) -> Result<&'a [u8], Stop> {
    match files::read(rt, name, space) {
        Some(length) => Ok(front(space, length)),
        None => {
            error::tell_about(rt, "cannot read ", name)?;
            Err(Stop::Failed)
        }
    }
}

// Writes a text to a file.
pub(crate) fn write(rt: &impl Runtime, name: &[u8], text: &[u8]) -> Result<(), Stop> {
    match files::write(rt, name, text) {
        Ok(()) => Ok(()),
        Err(reason) => {
            tell(rt, reason, name)?;
            Err(Stop::Failed)
        }
    }
}

// Tells why an output was not written.
fn tell(rt: &impl Print, reason: NotWritten, name: &[u8]) -> io::Result<()> {
    match reason {
        NotWritten::NotRegular => error::tell_about(
            rt,
            "nothing was written, since it is no regular file: ",
            name,
        ),
        NotWritten::PartThere => {
            print!(rt; "error nothing was written, since ")?;
            print::bytes(rt, name)?;
            println!(rt; ".part is there, as after a run that was killed: remove it first")
        }
        NotWritten::NameTooLong => error::tell(rt, "the name of the output is too long"),
        NotWritten::Standard => error::tell(rt, "the output is a file, not -"),
        NotWritten::Failed => error::tell_about(rt, "cannot write ", name),
    }
}

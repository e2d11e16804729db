// The files that a command names after its first argument: reports, read one after the other as one text.
use crate::command::{arguments, rest, word};
use crate::file;
use crate::status::Stop;
use report::ROW_LIMIT;
use sheet::sources::Sources;
use std::rt::Runtime;
use text::part::front;
use words::print;

// Reads the files into the space, one after the other, and notes how long each is; each is a report by itself, and so are all together.
pub(crate) fn read<'a>(
    rt: &impl Runtime,
    command: &'a [u8],
    space: &'a mut [u8],
    lengths: &'a mut [usize; ROW_LIMIT],
) -> Result<Sources<'a>, Stop> {
    let names = rest(rest(command));
    let files = arguments(names) + 1;
    if ROW_LIMIT < files {
        println!(rt; "error too many files: at most {ROW_LIMIT}")?;
        return Err(Stop::Failed);
    }
    let total = read_files(rt, names, space, &mut lengths[..files])?;
    let texts = front(space, total);
    check(rt, texts, b"the files together, as one text")?;
    Ok(Sources {
        names,
        texts,
        lengths: &lengths[..files],
    })
}

// Reads the files of names into the space, one after the other, until it is full, notes how long each is, and says how long all are.
fn read_files(
    rt: &impl Runtime,
    names: &[u8],
    space: &mut [u8],
    lengths: &mut [usize],
) -> Result<usize, Stop> {
    let mut total: usize = 0;
    let mut left = names;
    for length in lengths {
        *length = read_after(rt, word(left, 0), total, space)?;
        total = total.saturating_add(*length);
        left = rest(left);
    }
    Ok(total)
}

// Reads a file into the space from a place on, and says how long it is; stops where it is no report. One that fills the space is not
// looked at: it is too long together with those before it.
fn read_after(rt: &impl Runtime, name: &[u8], at: usize, space: &mut [u8]) -> Result<usize, Stop> {
    if space.len() < at {
        return Ok(0);
    }
    let room = &mut space[at..];
    let size = room.len();
    let text = file::read(rt, name, room)?;
    if text.len() < size {
        check(rt, text, name)?;
    }
    Ok(text.len())
}

// Stops where a text is no report: its refusal is told, and whose fault it is.
fn check(rt: &impl Print, text: &[u8], name: &[u8]) -> Result<(), Stop> {
    match report::check(text) {
        Ok(_) => Ok(()),
        Err(refusal) => {
            explain::refused(rt, text, refusal)?;
            print!(rt; "The fault is in ")?;
            print::bytes(rt, name)?;
            println!(rt; ".")?;
            Err(Stop::Refused)
        }
    }
}

// A command: its words, parted by bytes 0.
ghost use Rattle.std.specs.Prelude.{◌≡◌, ◌≤◌, drop, length};
ghost use Rattle.inspect.specs.Part.{after_mark, part_of, marks_in};

use inspect::part;
use std::env::{Env, FillError};
use std::io;
use text::part::{front, tail};
use words::print;

// The byte between two words.
const PARTING: u8 = 0;

// The program's arguments as a command, put into the space; none where they do not fit.
pub(crate) fn gather<'a>(rt: &impl Env, space: &'a mut [u8]) -> Option<&'a [u8]> {
    let mut at: usize = 0;
    for number in 1..usize::MAX {
        match put_argument(rt, number, at, space) {
            Ok(end) => at = end,
            Err(FillError::NotPresent) => break,
            Err(FillError::TooLong) => return None,
        }
    }
    Some(front(space, at.saturating_sub(1)))
}

// Puts an argument and the byte after it into the space at a place, and says where they end, or that there is no such argument or that
// they do not fit.
fn put_argument(
    rt: &impl Env,
    number: usize,
    at: usize,
    space: &mut [u8],
) -> Result<usize, FillError> {
    if space.len() < at {
        return Err(FillError::TooLong);
    }
    let length = rt.arg(number, &mut space[at..])?;
    let end = at + length;
    if space.len() <= end {
        return Err(FillError::TooLong);
    }
    space[end] = PARTING;
    Ok(end + 1)
}

// The word of a number, counted from 0; empty past the last one.
pub fn word(command: &[u8], number: usize) -> &[u8]
    ensures { result.now ≡ part_of command.now number 0 }
{
    part::numbered(command, number, PARTING)
}

// How many words a command has after its name.
pub fn arguments(command: &[u8]) -> usize
    ensures { (result ≡ marks_in 0 command.now) × (result ≤ length command.now) }
{
    part::count(command, PARTING)
}

// The command that stands after the first word.
pub(crate) fn rest(command: &[u8]) -> &[u8]
    ensures { result.now ≡ drop (after_mark command.now 0 0) command.now }
{
    tail(command, part::after(command, 0, PARTING))
}

// Turns the blanks of a text into the bytes between words.
pub(crate) fn part_words(text: &mut [u8]) {
    for byte in text {
        if *byte == b' ' {
            *byte = PARTING;
        }
    }
}

// Prints a command as it was given.
pub(crate) fn echo(rt: &impl Print, command: &[u8]) -> io::Result<()> {
    let mut words = command;
    print!(rt; "ades")?;
    for _ in 0..=arguments(command) {
        print!(rt; " ")?;
        print::bytes(rt, word(words, 0))?;
        words = rest(words);
    }
    print::line_end(rt)
}

// A line shown, with a mark under a part of it. A long line is cut, so that what is shown stays readable.
ghost use Rattle.std.specs.Prelude.{◌≤◌};

use std::io;
use text::lines::{Span, is_printable};
use text::part::{front, tail};
use words::print;

// The most bytes of a line that are shown.
const SHOWN: usize = 100;

// How many bytes before the mark are shown where the start of the line is not.
const BEFORE: usize = 40;

// Prints a line, and under it a mark under a part, at least one byte long. Of a long line only what is near the mark is printed.
pub(crate) fn print_marked(rt: &impl Print, line: &[u8], part: Span) -> io::Result<()> {
    let first = first_shown(part.start);
    let place = part.start - first;
    print_from(rt, line, first)?;
    print_if(rt, 0 < first, b"   ")?;
    print_mark(rt, place, part.length)
}

// Prints a line, or the start of a long one.
pub(crate) fn print_line(rt: &impl Print, line: &[u8]) -> io::Result<()> {
    print_from(rt, line, 0)
}

// The first byte that is shown of a line with a mark at a place: that of the line, if the mark is near it.
fn first_shown(from: usize) -> usize
    ensures { result ≤ from }
{
    if from < SHOWN - BEFORE {
        0
    } else {
        from - BEFORE
    }
}

// Prints a line from a byte on, with dots for what is left out, and `?` for each byte outside 0x20 to 0x7E.
fn print_from(rt: &impl Print, line: &[u8], first: usize) -> io::Result<()> {
    let mut space = [b'?'; SHOWN];
    let rest = tail(line, first);
    for (shown, byte) in space.iter_mut().zip(rest) {
        if is_printable(*byte) {
            *shown = *byte;
        }
    }
    print_if(rt, 0 < first, b"...")?;
    print::bytes(rt, front(&space, rest.len()))?;
    print_if(rt, SHOWN < rest.len(), b"...")?;
    print::line_end(rt)
}

// Prints a text where the test is true.
fn print_if(rt: &impl Print, test: bool, text: &[u8]) -> io::Result<()> {
    if test {
        print::bytes(rt, text)?;
    }
    Ok(())
}

// Prints blanks up to a place, and from there on a mark, so many bytes long, at least one, and not past what is shown.
fn print_mark(rt: &impl Print, place: usize, length: usize) -> io::Result<()> {
    let marks = length.min(SHOWN.saturating_sub(place)).max(1);
    println!(rt; "{:place$}{:^<marks$}", "", "")
}

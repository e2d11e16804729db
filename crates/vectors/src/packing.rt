// Cases on packing: M asks the length, W writes by the cuts that its second text spells, P does both.
use std::io;
use text::part::{at, front};
use words::print;

// The most bytes that an output is lent with, and some past them.
const LARGEST_OUTPUT: usize = 70064;

// The most numbers that a list is lent with.
const LARGEST_LIST: usize = 1100;

// Prints the answer of a case about packing; nothing for another letter.
pub(crate) fn answer(
    rt: &impl Print,
    letter: u8,
    first: usize,
    second: usize,
    report: &[u8],
    spelt: &[u8],
) -> io::Result<()> {
    let filling = (second % 256) as u8;
    match letter {
        b'M' => measure_alone(rt, report, first, (second % 65536) as u16),
        b'W' => write_spelt(rt, report, spelt, first, filling),
        b'P' => pack_case(rt, report, first, filling),
        _ => Ok(()),
    }
}

// Asks the length with so many numbers of a list that is filled with a number.
fn measure_alone(rt: &impl Print, report: &[u8], room: usize, filling: u16) -> io::Result<()> {
    let mut list = [0u16; LARGEST_LIST];
    measure_case(rt, report, room, filling, &mut list)?;
    Ok(())
}

// Asks the length of a report, and writes it by the cuts that are given into so many bytes of an output that is filled with a byte.
fn pack_case(rt: &impl Print, report: &[u8], room: usize, filling: u8) -> io::Result<()> {
    let mut cuts = [0u16; LARGEST_LIST];
    let blocks = measure_case(rt, report, LARGEST_LIST, 0, &mut cuts)?;
    write_case(rt, report, front(&cuts, blocks), room, filling)
}

// Writes a report by the cuts that a text spells into so many bytes of an output that is filled with a byte.
fn write_spelt(
    rt: &impl Print,
    report: &[u8],
    spelt: &[u8],
    room: usize,
    filling: u8,
) -> io::Result<()> {
    let mut cuts = [0u16; LARGEST_LIST];
    fill_spelt(spelt, &mut cuts);
    write_case(rt, report, front(&cuts, spelt.len() / 2), room, filling)
}

// Puts the numbers that a text spells into a list, two bytes each, low byte first.
fn fill_spelt(text: &[u8], list: &mut [u16]) {
    for (number, bytes) in list.iter_mut().zip(text.chunks(2)) {
        *number = u16::from_le_bytes([at(bytes, 0), at(bytes, 1)]);
    }
}

// Asks the length with so many numbers of a list that is filled with a number. Prints the answer, the cuts that were given and whether every
// other number of the list stayed; says how many cuts were given.
fn measure_case(
    rt: &impl Print,
    report: &[u8],
    room: usize,
    filling: u16,
    list: &mut [u16],
) -> io::Result<usize> {
    list.fill(filling);
    let given = measure_into(rt, report, room, list)?;
    let kept = list.iter().skip(given).all(|number| *number == filling);
    print_rest(rt, kept)?;
    Ok(given)
}

// Asks the length with so many numbers of a list, and prints the answer and the cuts that were given; says how many these are.
fn measure_into(
    rt: &impl Print,
    report: &[u8],
    room: usize,
    list: &mut [u16],
) -> io::Result<usize> {
    if list.len() < room {
        return Ok(0);
    }
    match pack::measure(report, &mut list[..room]) {
        Ok(measured) => {
            let blocks = measured.blocks;
            println!(rt; "measured {} blocks {blocks}", measured.length)?;
            if room < blocks {
                return Ok(0);
            }
            print_cuts(rt, front(list, blocks))?;
            Ok(blocks)
        }
        Err(refusal) => {
            print::refusal_line(rt, refusal)?;
            Ok(0)
        }
    }
}

// Prints `cuts` and the cuts.
fn print_cuts(rt: &impl Print, cuts: &[u16]) -> io::Result<()> {
    print!(rt; "cuts")?;
    for cut in cuts {
        print!(rt; " {cut}")?;
    }
    print::line_end(rt)
}

// Writes a report by cuts into so many bytes of an output that is filled with a byte. Prints the answer, the packed report and whether every
// other byte of the output stayed.
fn write_case(
    rt: &impl Print,
    report: &[u8],
    cuts: &[u16],
    room: usize,
    filling: u8,
) -> io::Result<()> {
    let mut output = [0u8; LARGEST_OUTPUT];
    output.fill(filling);
    let length = write_into(rt, report, cuts, room, &mut output)?;
    print::bytes(rt, front(&output, length))?;
    let kept = output.iter().skip(length).all(|byte| *byte == filling);
    print_rest(rt, kept)
}

// Writes a report by cuts into so many bytes of an output and prints the answer; says how many bytes were written.
fn write_into(
    rt: &impl Print,
    report: &[u8],
    cuts: &[u16],
    room: usize,
    output: &mut [u8],
) -> io::Result<usize> {
    if output.len() < room {
        return Ok(0);
    }
    match pack::write(report, cuts, &mut output[..room]) {
        Ok(length) => {
            println!(rt; "packed {length}")?;
            Ok(length)
        }
        Err(refusal) => {
            print::refusal_line(rt, refusal)?;
            Ok(0)
        }
    }
}

// Prints whether the rest of what was lent stayed.
fn print_rest(rt: &impl Print, stayed: bool) -> io::Result<()> {
    let rest = if stayed { "kept" } else { "changed" };
    println!(rt; "rest {rest}")
}

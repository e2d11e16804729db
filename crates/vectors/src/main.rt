// Runs the stored cases of the file `cases` and prints their answers.
// A case is a header of 60 bytes and two texts. The header is a letter, a blank, two numbers of 20 digits with a blank after each,
// the lengths of the two texts in 7 digits with a blank between, and LF.
#![tactic(auto)]

mod packing;

use night::answer::Record;
use std::io::{ErrorKind, Read};
use std::{fs, io};
use text::part::{at, front, tail};
use words::print;

// The file of the cases.
const CASES: &str = "cases";

// The bytes of a header.
const HEADER: usize = 60;

// The most bytes that a text has.
const LONGEST_TEXT: usize = 70000;

// More cases than there are.
const MOST_CASES: usize = 1000000;

fn main(rt: HostRuntime) -> io::Result<()> {
    match fs::open(&rt, CASES) {
        Ok(mut file) => run_all(&rt, &mut file),
        Err(error) => eprintln!(rt; "{CASES}: {error}"),
    }
}

// Runs one case after the other, to the end of the file.
fn run_all(rt: &impl Print, file: &mut impl Read) -> io::Result<()> {
    for _ in 0..MOST_CASES {
        if !run_next(rt, file)? {
            break;
        }
    }
    Ok(())
}

// Runs the next case; false at the end of the file.
fn run_next(rt: &impl Print, file: &mut impl Read) -> io::Result<bool> {
    let mut header = [0u8; HEADER];
    if !fill(file, &mut header)? {
        return Ok(false);
    }
    let mut space = [0u8; LONGEST_TEXT];
    let text = read_text(file, number_at(&header, 44, 7), &mut space)?;
    run_case(rt, file, &header, text)?;
    Ok(true)
}

// Reads a text of so many bytes into the space, and gives it; an empty one where there is no room for them.
fn read_text<'a>(
    file: &mut impl Read,
    count: usize,
    space: &'a mut [u8],
) -> io::Result<&'a mut [u8]> {
    let fits = if count <= space.len() { count } else { 0 };
    let text = &mut space[..fits];
    fill(file, text)?;
    Ok(text)
}

// Fills the space from the file; false where the file ends before.
fn fill(file: &mut impl Read, space: &mut [u8]) -> io::Result<bool> {
    match file.read_exact(space) {
        Ok(()) => Ok(true),
        Err(error) if error.kind() == ErrorKind::UnexpectedEof => Ok(false),
        Err(error) => Err(error),
    }
}

// Reads the second text of a case, after its first, and prints the answer.
fn run_case(rt: &impl Print, file: &mut impl Read, header: &[u8], text: &[u8]) -> io::Result<()> {
    let mut space = [0u8; LONGEST_TEXT];
    let more = read_text(file, number_at(header, 52, 7), &mut space)?;
    let letter = at(header, 0);
    let first = number_at(header, 2, 20);
    let second = number_at(header, 23, 20);
    answer(rt, letter, first, second, text)?;
    packing::answer(rt, letter, first, second, text, more)?;
    answer_list(rt, letter, first, text, more)
}

// The number that stands at a place of the header in so many digits.
fn number_at(header: &[u8], from: usize, digits: usize) -> usize {
    let word = front(tail(header, from), digits);
    words::number::read(word).unwrap_or(0) as usize
}

// Prints the answer of a case about a report: C check, S show, V value.
fn answer(
    rt: &impl Print,
    letter: u8,
    first: usize,
    second: usize,
    report: &[u8],
) -> io::Result<()> {
    match letter {
        b'C' => print::check_line(rt, report::check(report)),
        b'S' => show(rt, report, first, second),
        b'V' => print::value_line(rt, report::value(report, first, second)),
        _ => Ok(()),
    }
}

// Prints the answer of a case about a night list: L check, R read of a list, N write of a report into the lent list.
fn answer_list(
    rt: &impl Print,
    letter: u8,
    number: usize,
    text: &[u8],
    lent: &mut [u8],
) -> io::Result<()> {
    match letter {
        b'L' => check(rt, text),
        b'R' => read(rt, text, number),
        b'N' => write(rt, text, number, lent),
        _ => Ok(()),
    }
}

// Prints `written` or the refusal, and in the next line the list as it is then, in hexadecimal.
fn write(rt: &impl Print, report: &[u8], observation: usize, list: &mut [u8]) -> io::Result<()> {
    match night::write(report, observation, list) {
        Ok(()) => println!(rt; "written")?,
        Err(refusal) => print::refusal_line(rt, refusal)?,
    }
    print::hexadecimal(rt, list)?;
    print::line_end(rt)
}

// Prints `records N`, or the refusal.
fn check(rt: &impl Print, list: &[u8]) -> io::Result<()> {
    match night::check(list) {
        Ok(count) => print::records_line(rt, count),
        Err(refusal) => print::refusal_line(rt, refusal),
    }
}

// Prints `record NUMBER STATION DAY MICROSECONDS RA DEC`, or the refusal.
fn read(rt: &impl Print, list: &[u8], number: usize) -> io::Result<()> {
    match night::read(list, number) {
        Ok(record) => print_record(rt, record),
        Err(refusal) => print::refusal_line(rt, refusal),
    }
}

// Prints the fields of a record.
fn print_record(rt: &impl Print, record: Record) -> io::Result<()> {
    print!(rt; "record {} {} ", record.number, record.station)?;
    print!(rt; "{} {} ", record.day, record.microseconds)?;
    println!(rt; "{} {}", record.ra, record.dec)
}

// Prints `shown START LENGTH VALUE`, `absent`, or the refusal.
fn show(rt: &impl Print, report: &[u8], observation: usize, element: usize) -> io::Result<()> {
    match report::showing(report, observation, element) {
        Ok(Some(span)) => {
            print!(rt; "shown {} {} ", span.start, span.length)?;
            print::bytes(rt, report::shown(report, observation, element))?;
            print::line_end(rt)
        }
        Ok(None) => println!(rt; "absent"),
        Err(refusal) => print::refusal_line(rt, refusal),
    }
}

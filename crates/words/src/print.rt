// Answers printed on standard output, each in its fixed line.
ghost use Rattle.std.specs.Prelude.{◌≤◌, length};

use refusal::Refusal;
use std::io;
use text::part::front;
use value::Value;

// How many bytes are printed in hexadecimal by one call of the system.
const STEP: usize = 512;

// The digits. They are put by hand: `write!` with a format for each byte takes twelve times as long.
static DIGITS: [u8; 16] = *b"0123456789abcdef";

// Prints a text as it is.
pub fn bytes(rt: &impl Print, text: &[u8]) -> io::Result<()> {
    rt.write_all(text)
}

// Prints a text in hexadecimal: two digits a byte, the high one first.
pub fn hexadecimal(rt: &impl Print, text: &[u8]) -> io::Result<()> {
    for step in text.chunks(STEP) {
        hexadecimal_step(rt, step)?;
    }
    Ok(())
}

// Prints a text of at most 512 bytes in hexadecimal by one call of the system.
fn hexadecimal_step(rt: &impl Print, text: &[u8]) -> io::Result<()>
    requires { length text.now ≤ 512 }
{
    let mut space = [0u8; 2 * STEP];
    for (index, byte) in text.iter().enumerate() {
        space[2 * index] = DIGITS[usize::from(byte / 16)];
        space[2 * index + 1] = DIGITS[usize::from(byte % 16)];
    }
    rt.write_all(front(&space, 2 * text.len()))
}

// Ends a line.
pub fn line_end(rt: &impl Print) -> io::Result<()> {
    bytes(rt, b"\n")
}

// Prints the box's name and version.
pub fn version(rt: &impl Print) -> io::Result<()> {
    bytes(rt, b"kyrrbolda 1.6")
}

// Prints `accepted N`, or the refusal.
pub fn check_line(rt: &impl Print, answer: Result<usize, Refusal>) -> io::Result<()> {
    match answer {
        Ok(observations) => accepted_line(rt, observations),
        Err(refusal) => refusal_line(rt, refusal),
    }
}

// Prints `accepted N`.
pub fn accepted_line(rt: &impl Print, observations: usize) -> io::Result<()> {
    println!(rt; "accepted {observations}")
}

// Prints `records N`.
pub fn records_line(rt: &impl Print, records: usize) -> io::Result<()> {
    println!(rt; "records {records}")
}

// Prints `refused K line L place P`.
pub fn refusal_line(rt: &impl Print, refusal: Refusal) -> io::Result<()> {
    let kind = refusal::number(refusal.kind);
    println!(rt;
        "refused {kind} line {} place {}",
        refusal.line, refusal.place
    )
}

// Prints `whole N`, `decimal N places P`, `time DAY MICROSECONDS`, `angle N`, `scaled N power P`, `absent`, `no value`, or the refusal.
pub fn value_line(rt: &impl Print, answer: Result<Option<Value>, Refusal>) -> io::Result<()> {
    match answer {
        Ok(Some(value)) => one_value_line(rt, value),
        Ok(None) => bytes(rt, b"absent\n"),
        Err(refusal) => refusal_line(rt, refusal),
    }
}

// The same of a value that is there.
fn one_value_line(rt: &impl Print, value: Value) -> io::Result<()> {
    match value {
        Value::NoValue => bytes(rt, b"no value\n"),
        Value::Whole(whole) => println!(rt; "whole {whole}"),
        Value::Decimal(whole, places) => println!(rt; "decimal {whole} places {places}"),
        Value::Time(day, microseconds) => println!(rt; "time {day} {microseconds}"),
        Value::Angle(units) => println!(rt; "angle {units}"),
        Value::Scaled(negative, high, low, power) => {
            bytes(rt, b"scaled ")?;
            in_parts(rt, negative, high, low)?;
            println!(rt; " power {power}")
        }
    }
}

// Prints a whole number from its sign and its two parts, high and low by 10,000,000,000.
pub fn in_parts(rt: &impl Print, negative: bool, high: u64, low: u64) -> io::Result<()> {
    let sign = if negative { "-" } else { "" };
    if high == 0 {
        print!(rt; "{sign}{low}")
    } else {
        print!(rt; "{sign}{high}{low:010}")
    }
}

// The records of a night list.
use crate::told::{Counted, Degrees, TimeOfDay};
use explain::refusals;
use night::RECORD_SIZE;
use night::answer::Record;
use refusal::Refusal;
use std::io;
use words::print;

// How many bytes each field of a record has: number, stn, day, microseconds, ra, dec, zeros.
const FIELDS: [usize; 7] = [4, 4, 4, 8, 8, 8, 4];

// Prints how many records a list that was written has, and how many bytes.
pub fn print_written(rt: &impl Print, records: usize, bytes: usize) -> io::Result<()> {
    let records = Counted {
        number: records,
        name: "record",
    };
    println!(rt; "written {records} in {bytes} bytes")
}

// Prints how many records a list has, the records one a line, and what their numbers count.
pub fn print_records(rt: &impl Print, list: &[u8], count: usize) -> io::Result<()> {
    print::records_line(rt, count)?;
    for number in 1..=count {
        if let Ok(record) = night::read(list, number) {
            print_record(rt, record)?;
        }
    }
    if 0 < count {
        println!(rt;
            "day: days after 1858-11-17; then the time of that day; ra and dec: degrees."
        )?;
    }
    Ok(())
}

// Prints the refusal of an observation's record, and which observation it is.
pub fn print_unwritten(
    rt: &impl Print,
    report: &[u8],
    observation: usize,
    refusal: Refusal,
) -> io::Result<()> {
    explain::refused(rt, report, refusal)?;
    println!(rt; "The record refused is that of observation {observation}. Nothing was written.")
}

// Prints the refusal of a list: the rule, and the bytes of the record that breaks it.
pub fn print_refused(rt: &impl Print, list: &[u8], refusal: Refusal) -> io::Result<()> {
    print::refusal_line(rt, refusal)?;
    refusals::print_rule(rt, refusal.kind)?;
    print_bytes(rt, refusal.place, record_at(list, refusal.place))?;
    refusals::print_advice(rt, refusal.kind)
}

// Prints `record NUMBER: stn STATION, day DAY, HH:MM:SS.SSSSSS, ra DEGREES, dec DEGREES`, the station without the blank after a three-letter
// one.
fn print_record(rt: &impl Print, record: Record) -> io::Result<()> {
    let station = record.station.to_le_bytes();
    let day = record.day;
    let time = TimeOfDay(record.microseconds);
    let ra = Degrees(record.ra);
    let dec = Degrees(record.dec);
    print!(rt; "record {}: stn ", record.number)?;
    print::bytes(rt, station[..4].trim_ascii_end())?;
    println!(rt; ", day {day}, {time}, ra {ra}, dec {dec}")
}

// The bytes of the record of a number, counted from 1; fewer at the list's end.
fn record_at(list: &[u8], number: usize) -> &[u8] {
    list.chunks(RECORD_SIZE)
        .nth(number.saturating_sub(1))
        .unwrap_or(&[])
}

// Prints how many bytes a record has, and the bytes in hexadecimal, field by field, as far as the record has them.
fn print_bytes(rt: &impl Print, number: usize, record: &[u8]) -> io::Result<()> {
    println!(rt;
        "Record {number}, {} bytes: number, stn, day, microseconds, ra, dec, zeros in hexadecimal:",
        record.len()
    )?;
    let mut parting = "";
    let mut rest = record;
    for size in FIELDS {
        let (field, after) = rest.split_at(size.min(rest.len()));
        if !field.is_empty() {
            print!(rt; "{parting}")?;
            print::hexadecimal(rt, field)?;
        }
        parting = " ";
        rest = after;
    }
    print::line_end(rt)
}

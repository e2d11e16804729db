// Where a fault lies: the offending line with a mark under the field, and what the place of a refusal means.
use crate::{advice, elements, line};
use inspect::line::{column_of, columns_before, element_at, field, first_present, first_wrong};
use inspect::part;
use refusal::{Fault, Kind, Refusal};
use std::io;
use text::lines::{Span, scan};
use text::part::{at, front, tail};

// The first and the last of the elements of which any makes an observation radar: trx and com.
const RADAR_FIRST: usize = 30;

const RADAR_LAST: usize = 37;

// A line with a fault, and the column line that holds for it.
#[derive(Clone, Copy)]
pub(crate) struct FaultyLine<'a> {
    pub(crate) text: &'a [u8],
    pub(crate) columns: &'a [u8],
    pub(crate) fault: Fault,
}

impl<'a> FaultyLine<'a> {
    // The number of the element whose column stands at the place of the fault, if one does.
    pub(crate) fn element(self) -> Option<usize> {
        element_at(self.columns, self.fault.place)
    }

    // The name that the line has at the place of the fault.
    pub(crate) fn name(self) -> &'a [u8] {
        let found = field(self.text, self.fault.place).value;
        front(tail(self.text, found.start), found.length)
    }

    // The number of the first element that makes the line radar; none where it is optical.
    pub(crate) fn radar(self) -> Option<usize> {
        self.first_present(RADAR_FIRST, RADAR_LAST)
    }

    // The number of the first element from one to another that is present in the line, if one is.
    pub(crate) fn first_present(self, first: usize, last: usize) -> Option<usize> {
        first_present(self.text, self.columns, first, last)
    }
}

// Prints the line of a refusal of a report, the lines counted from 0, with a mark at its place, and what to do.
pub(crate) fn print_place(
    rt: &impl Print,
    report: &[u8],
    line: usize,
    refusal: Refusal,
) -> io::Result<()> {
    let start = part::start(report, line, b'\n');
    let faulty = FaultyLine {
        text: part::part(report, start, b'\n'),
        columns: part::part(report, columns_before(report, line), b'\n'),
        fault: Fault {
            kind: refusal.kind,
            place: refusal.place,
        },
    };
    if start < report.len() {
        print_marked(rt, faulty)?;
    } else {
        println!(rt; "The text ends before that line.")?;
    }
    advice::print_advice(rt, faulty)
}

// Prints a line with a mark at what its fault is about: a byte, a column, an element, the count of fields, or nothing of it. Every kind is
// named, so that a new one is not forgotten here.
fn print_marked(rt: &impl Print, faulty: FaultyLine) -> io::Result<()> {
    match faulty.fault.kind {
        Kind::WrongByte => print_byte(rt, faulty.text),
        Kind::UnknownColumn
        | Kind::ColumnTwice
        | Kind::TooWide
        | Kind::WrongForm
        | Kind::OutOfRange => print_column(rt, faulty),
        Kind::ElementMissing
        | Kind::GroupIncomplete
        | Kind::CentreNotEarth
        | Kind::ElementForeign => print_element(rt, faulty),
        Kind::FieldCountDiffers => print_count(rt, faulty),
        Kind::TextTooLong
        | Kind::NoLineEnd
        | Kind::VersionExpected
        | Kind::BlockUnfinished
        | Kind::TooManyRows
        | Kind::KindsMixed
        | Kind::OutputTooShort
        | Kind::NoObservation
        | Kind::NoElement
        | Kind::ListTooShort
        | Kind::BadRecord
        | Kind::NotOptical
        | Kind::CutsDiffer => line::print_line(rt, faulty.text),
    }
}

// Prints a line with a mark under its first byte outside 0x20 to 0x7E, after what that byte is.
fn print_byte(rt: &impl Print, text: &[u8]) -> io::Result<()> {
    let start = first_wrong(text);
    let byte = at(text, start);
    println!(rt; "The byte at the mark is 0x{byte:02x}.")?;
    line::print_marked(rt, text, Span { start, length: 1 })
}

// Prints a line with a mark under the field at a column's position, after the name of the element whose column it is.
fn print_column(rt: &impl Print, faulty: FaultyLine) -> io::Result<()> {
    let place = faulty.fault.place;
    print!(rt; "Column {place}")?;
    if let Some(element) = faulty.element() {
        print!(rt; ", ")?;
        elements::print_name(rt, element)?;
    }
    println!(rt; ":")?;
    line::print_marked(rt, faulty.text, field(faulty.text, place).value)
}

// Prints a line after the name of an element, with a mark under its field if it has a column.
fn print_element(rt: &impl Print, faulty: FaultyLine) -> io::Result<()> {
    let element = faulty.fault.place;
    print_which(rt, element, faulty.radar().is_some())?;
    match column_of(faulty.columns, element) {
        Some(column) => line::print_marked(rt, faulty.text, field(faulty.text, column).value),
        None => line::print_line(rt, faulty.text),
    }
}

// Prints which element a fault is about; 1 stands for those of an identification, which are two in a radar observation.
fn print_which(rt: &impl Print, element: usize, radar: bool) -> io::Result<()> {
    match element {
        1 if radar => println!(rt; "Elements 1 and 2, permID and provID:"),
        1 => println!(rt; "Elements 1 to 4, permID, provID, artSat and trkSub:"),
        _ => {
            print!(rt; "Element {element}, ")?;
            elements::print_name(rt, element)?;
            println!(rt; ":")
        }
    }
}

// Prints a line after the number of its fields and that of the columns.
fn print_count(rt: &impl Print, faulty: FaultyLine) -> io::Result<()> {
    let fields = scan(faulty.text).fields;
    let columns = scan(faulty.columns).fields;
    println!(rt; "Fields in the line: {fields}. Columns: {columns}.")?;
    line::print_line(rt, faulty.text)
}

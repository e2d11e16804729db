// The faults of a report: the first, and after it the first of each later line, as far as that makes sense. The first is what `check`
// answers; the others are help for a person. Each line is judged by itself, as the last line of a report of its block's column line, the
// last row before it in the block that could be read, and itself. So 21 is told at each row where a block of the other kind has to begin.
use crate::refusals;
use crate::refusals::REFUSALS;
use inspect::oddity::{Oddity, first_oddity};
use inspect::part;
use refusal::{Fault, Kind, Refusal};
use report::{ROW_LIMIT, TEXT_LIMIT};
use std::io;
use text::output::put;
use text::part::front;
use words::print;

// The room for a line under a version line and its column line: where the report has a shorter line for its version line, that is more than
// a text may have.
const ROOM: usize = TEXT_LIMIT + 15;

// The line that begins every block.
const VERSION: &[u8] = b"# version=2022\n";

// What stands before a line: nothing under which it can be read, a version line, a block's column line, or that and data lines, with the
// last of them that could be read.
#[derive(Clone, Copy)]
enum Before<'a> {
    Nothing,
    Version,
    Columns(&'a [u8]),
    Rows(&'a [u8], Option<&'a [u8]>),
}

// What is known before a line: what stands there, and how many data lines there were.
#[derive(Clone, Copy)]
struct Known<'a> {
    before: Before<'a>,
    rows: usize,
}

impl<'a> Known<'a> {
    // What is known after a line with a fault or none. A blank line and a header line are passed over; a version line with a fault is taken
    // as one; nothing can be read under a column line with a fault.
    fn after(self, line: &'a [u8], judged: Result<(), Fault>) -> Known<'a> {
        if is_passed(line) {
            return self;
        }
        if line.starts_with(b"#") {
            return self.with(Before::Version);
        }
        match self.before {
            Before::Nothing => self,
            Before::Version if judged.is_ok() => self.with(Before::Columns(line)),
            Before::Version => self.with(Before::Nothing),
            Before::Columns(columns) => self.with_row(columns, last_row(line, None, judged)),
            Before::Rows(columns, last) => self.with_row(columns, last_row(line, last, judged)),
        }
    }

    // The same with something else before the line.
    fn with(self, before: Before<'a>) -> Known<'a> {
        Known { before, ..self }
    }

    // The same after one data line more of a block, with the last of its rows that could be read.
    fn with_row(self, columns: &'a [u8], last: Option<&'a [u8]>) -> Known<'a> {
        Known {
            before: Before::Rows(columns, last),
            rows: self.rows.saturating_add(1),
        }
    }
}

// Prints the first fault of a report and those after it, and the rules that are broken.
pub fn print_faults(rt: &impl Print, report: &[u8], first: Refusal) -> io::Result<()> {
    let mut told = [false; REFUSALS];
    print_refusal(rt, first, &mut told)?;
    if 0 < first.line {
        list_rest(rt, report, first.line, &mut told)?;
    }
    refusals::print_told(rt, &told)?;
    println!(rt;
        "The first line is what `ades check` answers. Those after it are help: each line is judged by itself, under its block's column line, and its kind by the last right row before it."
    )
}

// Prints the faults of the lines after that of a number; none after too many data lines. The lines are counted by hand, since the number of
// the line after the last is wanted too: with `enumerate` they would have to be counted once more for that.
fn list_rest(rt: &impl Print, report: &[u8], first: usize, told: &mut [bool]) -> io::Result<()> {
    let mut space = [0u8; ROOM];
    let mut number: usize = 1;
    let mut known = Known {
        before: Before::Nothing,
        rows: 0,
    };
    for line in report.split_inclusive(|byte| *byte == b'\n') {
        let judged = judge(line, known, &mut space);
        print_fault(rt, judged, first, number, told)?;
        if is_over(judged) {
            return Ok(());
        }
        known = known.after(line, judged);
        number = number.saturating_add(1);
    }
    print_fault(rt, judge_end(known.before), first, number, told)
}

// Whether a line is sound, with its line feed, after what is known before it.
fn judge(line: &[u8], known: Known, space: &mut [u8]) -> Result<(), Fault> {
    if line.starts_with(b"#") {
        fault_in(line, 1)?;
        return judge_end(known.before);
    }
    match known.before {
        Before::Nothing => Ok(()),
        Before::Version => judge_under([VERSION, b"", b"", line], 2, space),
        _ if ROW_LIMIT <= known.rows => Err(Fault {
            kind: Kind::TooManyRows,
            place: 0,
        }),
        Before::Columns(columns) | Before::Rows(columns, None) => {
            judge_under([VERSION, columns, b"", line], 3, space)
        }
        Before::Rows(columns, Some(row)) => judge_under([VERSION, columns, row, line], 4, space),
    }
}

// Whether the line of a number is sound in a report of some lines.
fn judge_under(lines: [&[u8]; 4], number: usize, space: &mut [u8]) -> Result<(), Fault> {
    let mut length: usize = 0;
    for line in lines {
        length = put_after(line, length, space);
    }
    fault_in(front(space, length), number)
}

// Puts a text into the space at a place where there is room for it, and says where it ends; the place itself where there is none.
fn put_after(text: &[u8], at: usize, space: &mut [u8]) -> usize {
    if space.len() < at {
        return at;
    }
    at.saturating_add(put(text, &mut space[at..]))
}

// The fault of a text, if it lies in the line of a number.
fn fault_in(text: &[u8], number: usize) -> Result<(), Fault> {
    match report::check(text) {
        Err(refusal) if refusal.line == number => Err(Fault {
            kind: refusal.kind,
            place: refusal.place,
        }),
        _ => Ok(()),
    }
}

// Whether a block that ends after what stands before is sound: it has a column line and a data line.
fn judge_end(before: Before) -> Result<(), Fault> {
    match before {
        Before::Version | Before::Columns(_) => Err(Fault {
            kind: Kind::BlockUnfinished,
            place: 0,
        }),
        Before::Nothing | Before::Rows(_, _) => Ok(()),
    }
}

// The last row that could be read: a row, where it has no fault but its kind, otherwise the one before.
fn last_row<'a>(
    row: &'a [u8],
    before: Option<&'a [u8]>,
    judged: Result<(), Fault>,
) -> Option<&'a [u8]> {
    match judged {
        Ok(())
        | Err(
            Fault {
                kind: Kind::KindsMixed,
                ..
            },
        ) => Some(row),
        Err(_) => before,
    }
}

// Whether a line is passed over.
fn is_passed(line: &[u8]) -> bool {
    matches!(
        first_oddity(part::part(line, 0, b'\n')),
        Some(Oddity::BlankLine | Oddity::HeaderLine)
    )
}

// Whether no line after a fault is looked at: the report has too many data lines.
fn is_over(judged: Result<(), Fault>) -> bool {
    matches!(
        judged,
        Err(Fault {
            kind: Kind::TooManyRows,
            ..
        })
    )
}

// Prints a fault in a line, if there is one and the line stands after the first with a fault.
fn print_fault(
    rt: &impl Print,
    judged: Result<(), Fault>,
    first: usize,
    line: usize,
    told: &mut [bool],
) -> io::Result<()> {
    match judged {
        Err(fault) if first < line => print_refusal(rt, fault.on_line(line), told),
        _ => Ok(()),
    }
}

// Prints a refusal in its fixed line, and marks its kind as told.
fn print_refusal(rt: &impl Print, refusal: Refusal, told: &mut [bool]) -> io::Result<()> {
    print::refusal_line(rt, refusal)?;
    if let Some(told) = told.get_mut(refusals::index_of(refusal.kind)) {
        *told = true;
    }
    Ok(())
}

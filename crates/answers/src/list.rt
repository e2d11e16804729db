// Every value of every observation.
use element::ELEMENTS;
use explain::elements::print_name;
use inspect::ROWS;
use report::index::{BLANK, Row, index, value_of};
use std::io;
use words::print;

// Prints the observations of a report; nothing of a refused one.
pub fn print_list(rt: &impl Print, report: &[u8]) -> io::Result<()> {
    let mut rows = [BLANK; ROWS];
    if let Ok(count) = index(report, 0, &mut rows) {
        for row in 0..count {
            println!(rt; "observation {}", row + 1)?;
            print_row(rt, report, &rows, row)?;
        }
    }
    Ok(())
}

// Prints the present elements of an observation, each with its value.
fn print_row(rt: &impl Print, report: &[u8], rows: &[Row], row: usize) -> io::Result<()> {
    for element in 0..ELEMENTS {
        let value = value_of(report, rows, row, element);
        if !value.is_empty() {
            print_value(rt, element + 1, value)?;
        }
    }
    Ok(())
}

// Prints an element's name and its value.
fn print_value(rt: &impl Print, element: usize, value: &[u8]) -> io::Result<()> {
    print!(rt; "  ")?;
    print_name(rt, element)?;
    print!(rt; " ")?;
    print::bytes(rt, value)?;
    print::line_end(rt)
}

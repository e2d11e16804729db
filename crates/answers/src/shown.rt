// A value's own bytes.
use crate::told::Counted;
use explain::elements::print_name;
use std::io;
use text::lines::Span;
use words::print;

// An element of an observation, both by number.
#[derive(Clone, Copy)]
pub struct Asked {
    pub observation: usize,
    pub element: usize,
}

// Prints the value of an element of an observation, and where it lies in the report.
pub fn print_shown(rt: &impl Print, report: &[u8], asked: Asked, value: Span) -> io::Result<()> {
    let start = value.start;
    let bytes = Counted {
        number: value.length,
        name: "byte",
    };
    print!(rt; "shown ")?;
    print::bytes(rt, report::shown(report, asked.observation, asked.element))?;
    print::line_end(rt)?;
    print_asked(rt, asked)?;
    println!(rt; ": {bytes} after the first {start} of the report.")
}

// Prints that an observation has no such element.
pub fn print_absent(rt: &impl Print, asked: Asked) -> io::Result<()> {
    println!(rt; "absent")?;
    print_asked(rt, asked)?;
    println!(rt; " is not there.")
}

// Prints `NAME of observation N`.
pub(crate) fn print_asked(rt: &impl Print, asked: Asked) -> io::Result<()> {
    print_name(rt, asked.element)?;
    print!(rt; " of observation {}", asked.observation)
}

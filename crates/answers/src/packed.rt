// How long a report is and its packed report.
use crate::told::Counted;
use std::io;

// Prints how long a packed report is and its report was, and the rows of its blocks.
pub fn print_packed(rt: &impl Print, length: usize, report: usize, cuts: &[u16]) -> io::Result<()> {
    print_lengths(rt, "packed", length, report, cuts)
}

// Prints how long the packed report of a report is, the rows of its blocks, and how many bytes it saves. No packed report is longer.
pub fn print_length(rt: &impl Print, length: usize, report: usize, cuts: &[u16]) -> io::Result<()> {
    let saved = Counted {
        number: report.saturating_sub(length),
        name: "byte",
    };
    print_lengths(rt, "length", length, report, cuts)?;
    println!(rt; "saves {saved}")
}

// Prints the two lengths after a word, how many blocks there are, and how many rows each has.
fn print_lengths(
    rt: &impl Print,
    word: &str,
    length: usize,
    report: usize,
    cuts: &[u16],
) -> io::Result<()> {
    let blocks = Counted {
        number: cuts.len(),
        name: "block",
    };
    println!(rt; "{word} {length} from {report} in {blocks}")?;
    for (index, rows) in cuts.iter().enumerate() {
        println!(rt; "block {}: rows {rows}", index + 1)?;
    }
    Ok(())
}

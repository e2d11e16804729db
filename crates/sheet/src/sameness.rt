// Whether a packed report holds the observations of its report.
use comparison::{Compared, compare};
use std::io;

// Prints what comparing a report with its packed report comes to.
pub(crate) fn print_same(rt: &impl Print, report: &[u8], packed: &[u8]) -> io::Result<()> {
    match compare(report, packed) {
        Compared::Same(observations) => println!(rt;
            "Yes.\n   Read back and compared: all {observations} are the same."
        )?,
        _ => println!(rt; "No.")?,
    }
    println!(rt;
        "   Proved of every report: `reads` of `ShortestCuts` (crates/layout/specs/Packed.antt),\n\
         \x20  which `write` promises (crates/pack/specs/Promise.antt)."
    )
}

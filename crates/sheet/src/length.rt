// Why a packed report is as long as it is.
use crate::costing;
use crate::rows::Rows;
use inspect::ROWS;
use report::index::{BLANK, fill_sizes, index};
use std::io;

// Prints the answer to the third question, of a report and its packed report.
pub(crate) fn print_length(rt: &impl Print, report: &[u8], packed: &[u8]) -> io::Result<()> {
    println!(rt; "3. Why is the packed report {} bytes long?", packed.len())?;
    print_account(rt, report, packed)?;
    println!(rt;
        "   Proved of every report: its packed report has the bytes of that sum, `written-bytes`\n\
         \x20  (crates/layout/proofs/BlockBytes.antt), and no report of the same observations is shorter,\n\
         \x20  `least` of `ShortestCuts`."
    )
}

// Prints the account of a packed report, and what else its observations could have cost; nothing for a refused report.
fn print_account(rt: &impl Print, report: &[u8], packed: &[u8]) -> io::Result<()> {
    let mut noted = [BLANK; ROWS];
    let mut sets = [0u64; ROWS];
    let mut sizes = [0u32; ROWS];
    match index(report, 0, &mut noted) {
        Ok(0) => println!(rt; "   It has no observation, so it has no block."),
        Ok(count) => {
            for (set, row) in sets.iter_mut().zip(&noted) {
                *set = row.present;
            }
            fill_sizes(&noted, &mut sizes);
            let all = Rows {
                sets: &sets,
                sizes: &sizes,
            };
            let (rows, _) = all.split_at(count);
            costing::print_costs(rt, report, packed, rows)
        }
        Err(_) => Ok(()),
    }
}

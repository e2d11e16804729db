// The packed report written by its cuts.
ghost use Rattle.std.specs.Prelude.{◌≡◌, ◌≤◌, length};
ghost use Rattle.text.specs.Part.{same};
ghost use Rattle.pack.specs.Promise.{written_paper, WritePromised};
ghost use Rattle.pack.specs.Inner.{RoomAsks, CutIs};

use crate::block::write_blocks;
use crate::plan::{blank_rows, plan};
use cuts::Plan;
use refusal::{Kind, Refusal};
use report::index::Row;

// Writes a report of no more than so many rows by cuts. It makes an index of them, with one row more, which the reader uses itself.
#[inline(never)]
pub(crate) fn write_rows<const ROWS: usize, const NOTED: usize>(
    report: &[u8],
    cuts: &[u16],
    output: &mut [u8],
) -> Result<usize, Refusal>
    requires { RoomAsks report.now ROWS NOTED }
    ensures { WritePromised report.now cuts.now output.old output.new (written_paper result) }
{
    let mut rows = blank_rows::<NOTED>();
    let mut found = [0u16; ROWS];
    let plan = plan::<ROWS>(report, &mut rows, &mut found)?;
    write_planned(report, cuts, &rows, &found, plan, output)
}

// Writes the packed report where the cuts are those of its plan and the output has room for it.
fn write_planned(
    report: &[u8],
    cuts: &[u16],
    rows: &[Row],
    found: &[u16],
    plan: Plan,
    output: &mut [u8],
) -> Result<usize, Refusal>
    requires { CutIs report.now rows.now found.now plan }
    ensures { WritePromised report.now cuts.now output.old output.new (written_paper result) }
{
    if !are_found(cuts, &found[..plan.blocks]) {
        return Err(Refusal::of_request(Kind::CutsDiffer));
    }
    if output.len() < plan.bytes as usize {
        return Err(Refusal::of_request(Kind::OutputTooShort));
    }
    Ok(write_blocks(report, rows, cuts, output))
}

// Whether the cuts handed in are those that were found, every number of them.
fn are_found(cuts: &[u16], found: &[u16]) -> bool
    ensures { result ≡ same cuts.now found.now }
{
    cuts == found
}

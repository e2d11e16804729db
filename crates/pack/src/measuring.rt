// The length of the packed report, and its cuts.
ghost use Rattle.std.specs.Prelude.{◌≡◌, ◌≤◌, length};
ghost use Rattle.pack.specs.Promise.{measured_paper, MeasurePromised};
ghost use Rattle.pack.specs.Inner.{RoomAsks, Given};

use crate::Measured;
use crate::plan::{blank_rows, plan};
use cuts::Plan;
use refusal::Refusal;

// Measures a report of no more than so many rows. It makes an index of them, with one row more, which the reader uses itself.
#[inline(never)]
pub(crate) fn measure_rows<const ROWS: usize, const NOTED: usize>(
    report: &[u8],
    cuts: &mut [u16],
) -> Result<Measured, Refusal>
    requires { RoomAsks report.now ROWS NOTED }
    ensures { MeasurePromised report.now cuts.old cuts.new (measured_paper result) }
{
    let mut rows = blank_rows::<NOTED>();
    let mut found = [0u16; ROWS];
    let plan = plan::<ROWS>(report, &mut rows, &mut found)?;
    Ok(give_cuts(&found, plan, cuts))
}

// Writes the cuts of a plan over the start of the lent list where it has room for them, and gives the plan's length and number of blocks.
fn give_cuts(found: &[u16], plan: Plan, cuts: &mut [u16]) -> Measured
    requires { plan.blocks ≤ length found.now }
    ensures { Given found.now plan cuts.old cuts.new result }
{
    text::output::put(&found[..plan.blocks], cuts);
    Measured {
        length: plan.bytes as usize,
        blocks: plan.blocks,
    }
}

// Stretches of neighbouring rows with one mark. A block holds rows of one mark, so each stretch is cut by itself.
ghost use Rattle.std.specs.Prelude.{◌≡◌, ◌==◌, ◌<◌, length};
ghost use Rattle.std.specs.List.{prefix_len};
ghost use Rattle.cuts.specs.Cuts.{same_mark};
ghost use Rattle.cuts.specs.Plan.{marked_rows, marked_bytes, Planned};
ghost use Rattle.cuts.specs.Runs.{Ready};
ghost use Rattle.cuts.specs.Stretches.{StretchEnds};

use super::{Plan, plan_ready};

// The shortest cutting of rows that are ready and have a mark each, where a block holds rows of one mark. The cuts of each stretch are
// written behind those of the stretches before it.
pub(crate) fn plan_stretches(marks: &[u8], sets: &[u64], sizes: &[u32], cuts: &mut [u16]) -> Plan
    requires { (length marks.now ≡ length sets.now) × Ready sets.now sizes.now cuts.old }
    ensures { Planned marked_bytes (same_mark (λ marked. marked.mark)) (marked_rows marks.now sets.now sizes.now) result cuts.old cuts.new }
{
    let mut blocks: usize = 0;
    let mut bytes: u64 = 0;
    let mut at: usize = 0;
    // No loop over an index: the next stretch begins where this one ends.
    while at < marks.len() {
        let end = stretch_end(marks, at);
        let plan = plan_ready(&sets[at..end], &sizes[at..end], &mut cuts[blocks..]);
        blocks += plan.blocks;
        bytes += plan.bytes;
        at = end;
    }
    Plan { blocks, bytes }
}

// Where the stretch that begins at a row ends: the next row with another mark, or the end of the rows.
fn stretch_end(marks: &[u8], at: usize) -> usize
    requires { at < length marks.now }
    ensures { StretchEnds marks.now at result }
{
    at + same_marks(&marks[at..], marks[at])
}

// How many marks from the first on are this one.
fn same_marks(marks: &[u8], mark: u8) -> usize
    ensures { result ≡ prefix_len (λ next. next == mark) marks.now }
{
    marks.iter().take_while(|next| **next == mark).count()
}

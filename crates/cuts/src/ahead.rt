// The runs that a first block is looked for in.
ghost use Rattle.cuts.specs.Look.{Small};

use super::block::Row;

// Some runs, and the fewest bytes of what is left after each of them. The sums of the runs fit.
#[derive(Clone, Copy)]
pub struct Ahead<'a> {
    pub runs: &'a [Row],
    pub after: &'a [u64],
    ghost small: { Small runs.now after.now },
}

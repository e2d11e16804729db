// Rows of a report, by the elements that each has and the bytes of its values.
ghost use Rattle.std.specs.Prelude.{◌≡◌, ◌-◌, length};

use account::Block;

// Rows one after the other: the set of elements of each, and the bytes of its values.
#[derive(Clone, Copy)]
pub(crate) struct Rows<'a> {
    pub(crate) sets: &'a [u64],
    pub(crate) sizes: &'a [u32],
}

impl<'a> Rows<'a> {
    // So many rows from the first on, as many as there are at most, and those after them.
    pub(crate) fn split_at(self, count: usize) -> (Rows<'a>, Rows<'a>)
        ensures { length result.1.sets.now ≡ length self.entry.sets.now - count }
    {
        let (sets, later_sets) = self.sets.split_at(count.min(self.sets.len()));
        let (sizes, later_sizes) = self.sizes.split_at(count.min(self.sizes.len()));
        let rows = Rows { sets, sizes };
        let later = Rows {
            sets: later_sets,
            sizes: later_sizes,
        };
        (rows, later)
    }

    // The account of a block of the rows.
    pub(crate) fn block(self) -> Block {
        account::account(self.sets, self.sizes)
    }
}

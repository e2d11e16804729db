// The blocks of a text: where each starts and ends, how many rows it has, and how long its first two lines are.
ghost use Rattle.std.specs.Prelude.{◌≡◌, ◌≤◌, length};
ghost use Rattle.text.specs.Output.{over};
ghost use Rattle.inspect.specs.Blocks.{block_length, block_rows, block_start, head_length};

use crate::part;
use crate::part::count;
use text::part::{at, front, tail};

// Fills in how many rows each block of a text has, of as many blocks as there is room for, and says how many blocks that is.
pub fn fill_rows(text: &[u8], rows: &mut [usize]) -> usize
    ensures { (result ≡ length (block_rows (length rows.old) text.now)) × (rows.new ≡ over (block_rows (length rows.old) text.now) rows.old) × (result ≤ length rows.new) }
{
    let mut start: usize = 0;
    for (k, row) in rows.iter_mut().enumerate() {
        if text.len() <= start {
            return k;
        }
        let rest = tail(text, start);
        let length = first_length(rest);
        *row = count(front(rest, length), b'\n').saturating_sub(2);
        start += length;
    }
    rows.len()
}

// How many bytes the version line and the column line of a text's block have, the blocks counted from 0.
pub fn head_length(text: &[u8], number: usize) -> usize
    ensures { result ≡ head_length text.now number }
{
    part::start(tail(text, start(text, number)), 2, b'\n')
}

// Where the block of a number, counted from 0, starts in a text; past the last one the end of the text.
#[tactic(auto, unfolding(crate::specs::Blocks::block_start))]
fn start(text: &[u8], number: usize) -> usize
    ensures { result ≡ block_start text.now number }
{
    let mut at: usize = 0;
    for _ in 0..number {
        at += first_length(tail(text, at));
    }
    at
}

// The length of a text's first block: up to the next line that begins with `#`, or to the end of the text.
#[tactic(auto, unfolding(crate::specs::Blocks::block_length))]
fn first_length(text: &[u8]) -> usize
    ensures { (result ≡ block_length text.now) × (result ≤ length text.now) }
{
    for (i, byte) in text.iter().enumerate() {
        if (*byte == b'\n') & (at(text, i + 1) == b'#') {
            return i + 1;
        }
    }
    text.len()
}

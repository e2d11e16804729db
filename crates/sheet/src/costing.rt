// What a report's blocks cost in bytes, and what other blocks of the same rows would have cost.
ghost use Rattle.std.specs.Prelude.{◌≤◌, length};

use crate::rows::Rows;
use account::Block;
use inspect::ROWS;
use inspect::blocks::fill_rows;
use std::io;

// How many rows each block of a text has.
#[derive(Drop)]
struct BlockRows {
    rows: [usize; ROWS],
    blocks: usize,
    ghost filled: { blocks ≤ length rows },
}

impl BlockRows {
    // Those of a text.
    fn of(text: &[u8]) -> BlockRows {
        let mut rows = [0usize; ROWS];
        let blocks = fill_rows(text, &mut rows);
        BlockRows { rows, blocks }
    }

    // One number for each block.
    fn as_slice(&self) -> &[usize] {
        &self.rows[..self.blocks]
    }
}

// Prints the account of a packed report block by block, and what other blocks of the same rows would have cost.
pub(crate) fn print_costs(
    rt: &impl Print,
    report: &[u8],
    packed: &[u8],
    rows: Rows,
) -> io::Result<()> {
    let as_cut = cost_of(rows, BlockRows::of(report).as_slice());
    let by_change = cost_by_change(rows);
    print_blocks(rt, rows, BlockRows::of(packed).as_slice())?;
    println!(rt; "   total: {}", packed.len())?;
    println!(rt; "   as it came: {}", report.len())?;
    println!(rt; "   in the blocks that it came in, without padding: {as_cut}")?;
    print_one_block(rt, rows)?;
    println!(rt; "   with a block at every change of columns: {by_change}")
}

// Prints what all rows would cost in one block, which only rows of one kind can share.
fn print_one_block(rt: &impl Print, rows: Rows) -> io::Result<()> {
    if account::rows_of_kind(rows.sets) < rows.sets.len() {
        println!(rt; "   in one block: not possible, since a block holds one kind")
    } else {
        println!(rt; "   in one block: {}", rows.block().bytes)
    }
}

// Prints the account of each block, of so many rows each.
fn print_blocks(rt: &impl Print, rows: Rows, counts: &[usize]) -> io::Result<()> {
    let mut rest = rows;
    for (index, count) in counts.iter().enumerate() {
        let (rows, later) = rest.split_at(*count);
        print_account(rt, index + 1, rows.block())?;
        rest = later;
    }
    Ok(())
}

// The bytes of the rows in blocks of so many rows each.
fn cost_of(rows: Rows, counts: &[usize]) -> u64 {
    let mut total: u64 = 0;
    let mut rest = rows;
    for count in counts {
        let (rows, later) = rest.split_at(*count);
        total = total.saturating_add(rows.block().bytes);
        rest = later;
    }
    total
}

// The bytes of the rows with a block at every change of columns, which is what `like_rows` promises.
fn cost_by_change(rows: Rows) -> u64 {
    let mut total: u64 = 0;
    let mut rest = rows;
    while let count @ 1.. = account::like_rows(rest.sets) {
        let (rows, later) = rest.split_at(count);
        total = total.saturating_add(rows.block().bytes);
        rest = later;
    }
    total
}

// Prints the account of a block, by its number.
fn print_account(rt: &impl Print, number: usize, block: Block) -> io::Result<()> {
    let Block {
        rows,
        columns,
        names,
        values,
        bytes,
    } = block;
    print!(rt; "   block {number}: 15 + names {names} + columns {columns} + values {values}")?;
    println!(rt; " + rows {rows} x columns {columns} = {bytes}")
}

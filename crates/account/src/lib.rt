// The account of a block's length: 15, plus name lengths, plus one a column, plus values, plus rows times columns.
#![tactic(auto)]

ghost use Rattle.std.specs.Prelude.{◌≡◌, ◌≤◌, length};
ghost use Rattle.cuts.specs.Block.{most_rows, total};
ghost use Rattle.account.specs.Account.{value_limit, closed, accounted, alike, of_one_kind};

use element::observation::is_radar;
use element::set;

// The most rows of an account.
const MOST_ROWS: usize = 1024;

// A block: its rows, its columns, the bytes of their names, the bytes of its values, and all its bytes.
#[derive(Clone, Copy)]
pub struct Block {
    pub rows: u64,
    pub columns: u64,
    pub names: u64,
    pub values: u64,
    pub bytes: u64,
}

// The account of a block of the rows with these sets of elements and these bytes of values. Where there are more than 1,024 rows, or
// not as many sizes as sets, it is that of no rows.
pub fn account(sets: &[u64], sizes: &[u32]) -> Block
    ensures { result ≡ accounted sets.now sizes.now }
{
    if MOST_ROWS < sets.len() || sizes.len() != sets.len() {
        return close(0, 0, 0);
    }
    close(set::join(sets), total(sizes), sets.len() as u64)
}

// The account of a block from its set of elements, the bytes of its values and the number of its rows.
#[tactic(auto, using(element::proofs::Sets::names_low, crate::proofs::AccountLaws::cells_small), unfolding(crate::specs::Account::closed, cuts::specs::Block::bytes_of))]
fn close(set: u64, values: u64, rows: u64) -> Block
    requires { (values ≤ value_limit) × (rows ≤ most_rows) }
    ensures { result ≡ closed set values rows }
{
    let names = set::name_bytes(set);
    let columns = set::count(set);
    Block {
        rows,
        columns,
        names,
        values,
        bytes: 15 + names + columns + values + rows * columns,
    }
}

// All sizes together.
#[tactic(auto, using(cuts::proofs::SumLaws::total_sum))]
fn total(sizes: &[u32]) -> u64
    requires { length sizes.now ≤ most_rows }
    ensures { result ≡ total sizes.now }
{
    sizes.iter().map(|size| u64::from(*size)).sum()
}

// How many rows from the first on have the set of the first.
#[tactic(auto, unfolding(crate::specs::Account::alike))]
pub fn like_rows(sets: &[u64]) -> usize
    ensures { (result ≡ alike sets.now) × (result ≤ length sets.now) }
{
    match sets {
        [] => 0,
        [first, ..] => sets.iter().take_while(|set| **set == *first).count(),
    }
}

// How many rows from the first on are of the kind of the first, optical or radar.
#[tactic(auto, unfolding(crate::specs::Account::of_one_kind))]
pub fn rows_of_kind(sets: &[u64]) -> usize
    ensures { (result ≡ of_one_kind sets.now) × (result ≤ length sets.now) }
{
    match sets {
        [] => 0,
        [first, ..] => {
            let radar = is_radar(*first);
            sets.iter()
                .take_while(|set| is_radar(**set) == radar)
                .count()
        }
    }
}

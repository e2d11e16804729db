// Sets of elements: bit e stands for index e.
ghost use Rattle.std.specs.Prelude.{◌≡◌, ◌≤◌, ◌<◌};
ghost use Rattle.std.specs.Int.Count.{ones};
ghost use Rattle.element.specs.Set.{has, joined, length_if, bytes_in, name_bytes};

use crate::ELEMENTS;
use crate::name::length_at;

// How many lengths the first part of a sum has: half of them.
const PART: usize = 22;

// Whether the element of an index is in the set.
pub fn has(set: u64, index: usize) -> bool
    ensures { result ≡ has set index }
{
    index < 64 && (set >> index) % 2 == 1
}

// The set of the elements that are in one of the sets at least.
#[tactic(auto, unfolding(crate::specs::Set::joined))]
pub fn join(sets: &[u64]) -> u64
    ensures { result ≡ joined 0 sets.now }
{
    sets.iter().fold(0, |all, set| all | *set)
}

// How many elements the set has.
pub fn count(set: u64) -> u64
    ensures { (result ≡ ones set) × (result ≤ 64) }
{
    u64::from(set.count_ones())
}

// The bytes of the names of the set's elements. It goes from one element of the set to the next by the set's bits, and not over all elements:
// such a loop takes the search for cuts a third more (docs/PROVING.md, "Fast code that is proved").
pub fn name_bytes(set: u64) -> u64
    ensures { result ≡ name_bytes set }
{
    let mut left = set;
    let mut sum: u64 = 0;
    let mut e: usize = 0;
    while left != 0 {
        let skip = left.trailing_zeros() as usize;
        let next = e + skip;
        if ELEMENTS <= next {
            return sum;
        }
        sum += u64::from(length_at(next));
        left = (left >> skip) / 2;
        e = next + 1;
    }
    sum
}

// The bytes of the values of the set's elements, from the lengths noted for all elements; a length that is not given counts 0. They are summed
// in two parts, each short enough to be unrolled.
pub fn value_bytes(set: u64, lengths: &[u16]) -> u32
    ensures { result ≡ bytes_in lengths.now set }
{
    if lengths.len() < PART {
        return part_bytes(set, lengths);
    }
    part_bytes(set, &lengths[..PART]) + part_bytes(set >> PART, &lengths[PART..])
}

// The same in one part.
fn part_bytes(set: u64, lengths: &[u16]) -> u32
    ensures { result ≡ bytes_in lengths.now set }
{
    let mut left = set;
    let mut sum: u32 = 0;
    for length in lengths {
        sum += length_if(left % 2, *length);
        left /= 2;
    }
    sum
}

// A length where the bit is set, else 0.
fn length_if(bit: u64, length: u16) -> u32
    ensures { (result ≡ length_if bit length) × (result < 65536) }
{
    if bit == 0 { 0 } else { u32::from(length) }
}

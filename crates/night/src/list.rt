// The records of a list, one after another.
ghost use Rattle.std.specs.Prelude.{◌≡◌, ◌≤◌};
ghost use Rattle.text.specs.Numbered.{numbered};
ghost use Rattle.night.specs.List.{record_at, record_count, first_bad};

use crate::RECORD_SIZE;
use crate::record::is_record;
use text::part::{front, tail};

// The number of the first bad record of a list, counted from 1.
pub(crate) fn first_bad(list: &[u8]) -> Option<usize>
    ensures { result ≡ numbered (first_bad list.now) }
{
    for (index, record) in list.chunks(RECORD_SIZE).enumerate() {
        if !is_record(index + 1, record) {
            return Some(index + 1);
        }
    }
    None
}

// The record of a number that the list has, counted from 1; short at the list's end.
pub(crate) fn record_at(list: &[u8], number: usize) -> &[u8]
    requires { (1 ≤ number) × (number ≤ record_count list.now) }
    ensures { result.now ≡ record_at number list.now }
{
    front(tail(list, (number - 1) * RECORD_SIZE), RECORD_SIZE)
}

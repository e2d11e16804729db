// A file read.
ghost use Rattle.std.specs.Prelude.{◌≤◌, length, IfOk};

use crate::kind::path;
use std::io::Read;
use std::rt::Files;
use std::{fs, io};
use text::part::same;

// Reads a file, or standard input for `-`, to its end, or until the space is full, and says how many bytes it read.
pub(crate) fn read(
    rt: &(impl Files + io::Input),
    name: &[u8],
    space: &mut [u8],
) -> io::Result<usize>
    ensures { IfOk result (λ n. n ≤ length space.old) }
{
    if same(name, b"-") {
        return read_open(&mut rt.reader(), space);
    }
    let mut file = fs::open(rt, path(name)?)?;
    read_open(&mut file, space)
}

// The same of an open file.
fn read_open(file: &mut impl Read, space: &mut [u8]) -> io::Result<usize>
    ensures { IfOk result (λ n. n ≤ length space.old) }
{
    let room = space.len();
    let mut left = space;
    while !left.is_empty() {
        let more = file.read(left)?;
        if more == 0 {
            break;
        }
        left = &mut left[more..];
    }
    Ok(room - left.len())
}

// Files read whole, and written so that nothing half written is left. What a file holds no contract can say; that each call ends and
// never traps is proved, and what an answer owes to the name and the room alone.
#![tactic(auto)]

mod kind;
mod reading;
mod telling;
mod writing;

ghost use Rattle.std.specs.Prelude.{◌≡◌, true, length};
ghost use Rattle.files.specs.Answers.{is_within, by_name, fault_of};

use std::io;
use std::rt::Files;
use text::part::same;

// The longest name that an output may have.
const LONGEST: usize = 4000;

// Why a text was not written. Failed is a failure whose reason has been told; of the others none has touched a file.
#[derive(Clone, Copy, PartialEq, Eq)]
pub enum NotWritten {
    NotRegular,
    PartThere,
    NameTooLong,
    Standard,
    Failed,
}

// Reads a file, or standard input for `-`, into the space, as much as there is room for, and says how many bytes it read; none
// where it failed, and then the reason has gone to standard error.
pub fn read(
    rt: &(impl Files + io::Input + Eprint + Alloc),
    name: &[u8],
    space: &mut [u8],
) -> Option<usize>
    ensures { is_within (length space.old) result ≡ true }
{
    match reading::read(rt, name, space) {
        Ok(length) => Some(length),
        Err(error) => {
            telling::tell(rt, name, error);
            None
        }
    }
}

// Writes a text to a file, under its name and `.part` first, and then renames that; only a regular file is replaced. The reason of a
// failure goes to standard error.
pub fn write(rt: &(impl Files + Eprint + Alloc), name: &[u8], text: &[u8]) -> Result<(), NotWritten>
    ensures { by_name result ≡ fault_of name.now }
{
    if same(name, b"-") {
        return Err(NotWritten::Standard);
    }
    if LONGEST < name.len() {
        return Err(NotWritten::NameTooLong);
    }
    writing::replace(rt, name, text)
}

// A file written under another name and then renamed.
ghost use Rattle.std.specs.Prelude.{◌≡◌, ◌+◌, ◌≤◌, length, take, None, Err};
ghost use Rattle.files.specs.Answers.{by_name, longest};
ghost use Rattle.files.specs.Part.{part_name};

use crate::kind::{Kind, PATH_MAX, path};
use crate::{NotWritten, kind, telling};
use std::fs::{OpenFile, OpenOptions};
use std::io::{ErrorKind, Write};
use std::rt::Files;
use std::{fs, io};
use text::output::put;
use text::part::front;

// Writes a text to a file that is regular or not there; another is left as it is.
pub(crate) fn replace(
    rt: &(impl Files + Eprint + Alloc),
    name: &[u8],
    text: &[u8],
) -> Result<(), NotWritten>
    requires { length name.now ≤ longest }
    ensures { by_name result ≡ None }
{
    match kind::of_name(rt, name) {
        Ok(Kind::Missing | Kind::Regular) => write_part(rt, name, text),
        Ok(Kind::Other) => Err(NotWritten::NotRegular),
        Err(error) => Err(failed(rt, name, error)),
    }
}

// Writes a text to a new file, the name with `.part` after it, and then gives it the name.
fn write_part(
    rt: &(impl Files + Eprint + Alloc),
    name: &[u8],
    text: &[u8],
) -> Result<(), NotWritten>
    requires { length name.now ≤ longest }
    ensures { by_name result ≡ None }
{
    let mut space = [0u8; PATH_MAX];
    let length = put_part_name(name, &mut space);
    write_by_way_of(rt, front(&space, length), name, text)
}

// Writes a text to a new file and then gives it its name; where that fails the new file is removed.
fn write_by_way_of(
    rt: &(impl Files + Eprint + Alloc),
    part: &[u8],
    name: &[u8],
    text: &[u8],
) -> Result<(), NotWritten>
    requires { part.now ≡ part_name name.now }
    ensures { by_name result ≡ None }
{
    let file = match create(rt, part) {
        Ok(file) => file,
        Err(error) => return Err(not_made(rt, part, error)),
    };
    match write_and_rename(rt, file, part, name, text) {
        Ok(()) => Ok(()),
        Err(error) => {
            let reason = failed(rt, name, error);
            let _ = remove(rt, part);
            Err(reason)
        }
    }
}

// Writes a text to an open file, which has the name of the part, and then gives it its name.
fn write_and_rename<R: Files>(
    rt: &R,
    file: R::File,
    part: &[u8],
    name: &[u8],
    text: &[u8],
) -> io::Result<()> {
    write_open(file, text)?;
    fs::rename(rt, path(part)?, path(name)?)
}

// Makes a new file of a name and opens it for writing; a file of that name that is there already is a failure.
fn create<R: Files>(rt: &R, name: &[u8]) -> io::Result<R::File> {
    OpenOptions::new()
        .write(true)
        .create_new(true)
        .open(rt, path(name)?)
}

// Removes the file of a name.
fn remove(rt: &impl Files, name: &[u8]) -> io::Result<()> {
    fs::remove_file(rt, path(name)?)
}

// Why a new file could not be made: a file of that name is there already, or the system has another reason, which is told.
fn not_made(rt: &(impl Eprint + Alloc), part: &[u8], error: io::Error) -> NotWritten
    ensures { by_name (Err result) ≡ None }
{
    if error.kind() == ErrorKind::AlreadyExists {
        return NotWritten::PartThere;
    }
    failed(rt, part, error)
}

// Tells the reason of a failure.
fn failed(rt: &(impl Eprint + Alloc), name: &[u8], error: io::Error) -> NotWritten
    ensures { by_name (Err result) ≡ None }
{
    telling::tell(rt, name, error);
    NotWritten::Failed
}

// Writes a text to an open file and closes it. All of it was taken where that succeeds: what a system would tell at the close it tells
// when the file is synchronised.
fn write_open<F: Write + OpenFile + Drop>(mut file: F, text: &[u8]) -> io::Result<()> {
    file.write_all(text)?;
    file.sync_all()
}

// Puts a name and `.part` after it at the start of the space, and says the length of that.
fn put_part_name(name: &[u8], space: &mut [u8]) -> usize
    requires { length name.now + 5 ≤ length space.old }
    ensures { take result space.new ≡ part_name name.now }
{
    let length = name.len();
    put(name, space);
    put(b".part", &mut space[length..]);
    length + 5
}

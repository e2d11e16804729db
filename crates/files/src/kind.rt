// What kind of file a name stands for.
ghost use Rattle.std.specs.Prelude.{◌≡◌, ◌≢◌, ◌↔◌, true, Ok, IfOk, OnErr};
ghost use Rattle.std.specs.Fs.{file_type, IsFile};
ghost use Rattle.files.specs.Path.{is_path};

use std::fs::Metadata;
use std::io::ErrorKind;
use std::rt::Files;
use std::{fs, io, str};

// One more than the bytes of the longest path.
pub(crate) const PATH_MAX: usize = 4096;

// The system's numbers for three faults of a name: it has a byte 0, it is too long, it is no UTF-8 text.
const EINVAL: i32 = 22;

const ENAMETOOLONG: i32 = 36;

const EILSEQ: i32 = 84;

// The kinds that matter to a writer. A link is of another kind, whatever it leads to.
#[derive(Clone, Copy)]
pub(crate) enum Kind {
    Missing,
    Regular,
    Other,
}

// The kind of the file that a name stands for, or the system's reason for which it cannot be looked at. Where no file can have the
// name it is missing.
pub(crate) fn of_name(rt: &impl Files, name: &[u8]) -> io::Result<Kind> {
    match path(name) {
        Ok(path) => kind_of(fs::symlink_metadata(rt, path), name),
        Err(_) => Ok(Kind::Missing),
    }
}

// Whether a file can have the name: it is shorter than the longest path, and no byte of it is 0.
fn is_path(name: &[u8]) -> bool
    ensures { result ≡ is_path name.now }
{
    (name.len() < PATH_MAX) & !name.contains(&0)
}

// The kind that was found of the file of a name.
fn kind_of(found: io::Result<Metadata>, name: &[u8]) -> io::Result<Kind>
    ensures found { IfOk found (λ m. (result ≡ Ok Kind.Regular) ↔ IsFile (file_type m)) }
    ensures unseen { OnErr found (result ≢ Ok Kind.Regular) }
{
    match found {
        Ok(found) => Ok(mode(&found)),
        Err(error) => unseen(error, name),
    }
}

// The kind of a file of the name that could not be looked at. No file has an empty name, and none can be given it.
fn unseen(error: io::Error, name: &[u8]) -> io::Result<Kind>
    ensures { result ≢ Ok Kind.Regular }
{
    if error.kind() == ErrorKind::NotFound && !name.is_empty() {
        Ok(Kind::Missing)
    } else {
        Err(error)
    }
}

// A name as the system takes it, or the reason for which it takes none such. std opens only names that are UTF-8 text.
pub(crate) fn path(name: &[u8]) -> io::Result<&str>
    ensures { IfOk result (λ p. (p.now ≡ name.now) × (is_path name.now ≡ true)) }
{
    if !is_path(name) {
        return Err(no_path(name));
    }
    str::from_utf8(name).map_err(|_| io::Error::from_raw_os_error(EILSEQ))
}

// The system's reason for which a name that no file can have is no path.
fn no_path(name: &[u8]) -> io::Error {
    let number = if name.len() < PATH_MAX {
        EINVAL
    } else {
        ENAMETOOLONG
    };
    io::Error::from_raw_os_error(number)
}

// The kind that the mode of a file says.
fn mode(found: &Metadata) -> Kind
    ensures { (result ≡ Kind.Regular) ↔ IsFile (file_type found.now) }
{
    if found.is_file() {
        Kind::Regular
    } else {
        Kind::Other
    }
}

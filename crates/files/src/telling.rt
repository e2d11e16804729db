// Why something failed, told on standard error.
use std::io;

// What the C library's words for a reason are followed by in std's.
const NUMBER: &str = " (os error ";

// Tells what failed and, after a colon, the system's reason. Nothing more can be done where that fails too.
pub(crate) fn tell(rt: &(impl Eprint + Alloc), what: &[u8], error: io::Error) {
    if tell_of(rt, what, error).is_err() {
        let _ = rt.eprintln(error);
    }
}

// The same; it fails where memory is out or standard error takes nothing. A byte that is no part of UTF-8 text is told as U+FFFD.
fn tell_of(rt: &(impl Eprint + Alloc), what: &[u8], error: io::Error) -> io::Result<()> {
    let what = String::from_utf8_lossy(rt.alloc(), what)?;
    let words = error.to_string(rt.alloc())?;
    let reason = reason_in(words.as_str());
    eprintln!(rt; "{what}: {reason}")
}

// The C library's words, without what std writes after them.
fn reason_in(words: &str) -> &str {
    match words.find(NUMBER) {
        Some(at) => &words[..at],
        None => words,
    }
}

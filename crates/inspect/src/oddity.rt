// What is odd about a line: marks that an editor or another system leaves in it, blanks, and lines of another edition.
ghost use Rattle.std.specs.Prelude.{◌≡◌};
ghost use Rattle.inspect.specs.Oddity.{odd_byte, odd_version, odd_printable, oddity_of};

use crate::line::first_wrong;
use text::lines::{leading_blanks, trimmed};
use text::part::{at, front, same, starts_in, tail};

// What is odd about a line.
#[derive(Clone, Copy, PartialEq, Eq)]
pub enum Oddity {
    ByteOrderMark,
    Tab,
    CarriageReturn,
    BlankLine,
    BlankAfterVersion,
    OtherEdition,
    HeaderLine,
}

// What is odd about a line, given without its LF: a byte order mark before it; its first byte outside 0x20 to 0x7E, where that is a tab or
// a carriage return; or else what it says.
#[tactic(auto, unfolding(crate::specs::Oddity::oddity_of))]
pub fn first_oddity(line: &[u8]) -> Option<Oddity>
    ensures { result ≡ oddity_of line.now }
{
    if starts_in(b"\xEF\xBB\xBF", line) {
        return Some(Oddity::ByteOrderMark);
    }
    let wrong = first_wrong(line);
    if wrong < line.len() {
        return odd_byte(at(line, wrong));
    }
    odd_printable(line)
}

// What is odd about a byte outside 0x20 to 0x7E.
#[tactic(auto, unfolding(crate::specs::Oddity::odd_byte))]
fn odd_byte(byte: u8) -> Option<Oddity>
    ensures { result ≡ odd_byte byte }
{
    match byte {
        b'\t' => Some(Oddity::Tab),
        b'\r' => Some(Oddity::CarriageReturn),
        _ => None,
    }
}

// What is odd about a line whose bytes are 0x20 to 0x7E: that it is blank, a version line but for its end, or another header line.
#[tactic(auto, unfolding(crate::specs::Oddity::odd_printable, crate::specs::Oddity::is_blank, crate::specs::Oddity::is_header))]
fn odd_printable(line: &[u8]) -> Option<Oddity>
    ensures { result ≡ odd_printable line.now }
{
    if leading_blanks(line) == line.len() {
        return Some(Oddity::BlankLine);
    }
    if starts_in(b"# version", line) {
        return odd_version(line);
    }
    let first = at(line, 0);
    if (first == b'#') | (first == b'!') {
        return Some(Oddity::HeaderLine);
    }
    None
}

// What is odd about a line that begins with `# version`.
#[tactic(auto, unfolding(crate::specs::Oddity::odd_version))]
fn odd_version(line: &[u8]) -> Option<Oddity>
    ensures { result ≡ odd_version line.now }
{
    if same(line, b"# version=2022") {
        return None;
    }
    let words = trimmed(line);
    if same(
        front(tail(line, words.start), words.length),
        b"# version=2022",
    ) {
        return Some(Oddity::BlankAfterVersion);
    }
    Some(Oddity::OtherEdition)
}

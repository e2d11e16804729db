// The parts of a text that stand between marks, as lines between LFs.
ghost use Rattle.std.specs.Prelude.{◌≡◌, ◌≤◌, length};
ghost use Rattle.inspect.specs.Part.{part_from, after_mark, part_start, part_of, marks_in};

use text::lines::up_to;
use text::part::{front, tail};

// The part of a text from a place up to the next mark.
#[tactic(auto, unfolding(crate::specs::Part::part_from))]
pub fn part(text: &[u8], at: usize, mark: u8) -> &[u8]
    ensures { result.now ≡ part_from text.now at mark }
{
    let rest = tail(text, at);
    front(rest, up_to(rest, mark))
}

// The place after the next mark, or the end of the text.
#[tactic(auto, unfolding(crate::specs::Part::after_mark))]
pub fn after(text: &[u8], at: usize, mark: u8) -> usize
    ensures { result ≡ after_mark text.now at mark }
{
    let at = at.min(text.len());
    let till = at + up_to(&text[at..], mark);
    (till + 1).min(text.len())
}

// The place where the part of a number starts, counted from 0; past the last one the end of the text.
#[tactic(auto, unfolding(crate::specs::Part::part_start))]
pub fn start(text: &[u8], number: usize, mark: u8) -> usize
    ensures { result ≡ part_start text.now number mark }
{
    let mut at: usize = 0;
    for _ in 0..number {
        at = after(text, at, mark);
    }
    at
}

// The part of a number, counted from 0; empty past the last one.
#[tactic(auto, unfolding(crate::specs::Part::part_of))]
pub fn numbered(text: &[u8], number: usize, mark: u8) -> &[u8]
    ensures { result.now ≡ part_of text.now number mark }
{
    part(text, start(text, number, mark), mark)
}

// How many marks a text has.
pub fn count(text: &[u8], mark: u8) -> usize
    ensures { (result ≡ marks_in mark text.now) × (result ≤ length text.now) }
{
    text.iter().filter(|byte| **byte == mark).count()
}

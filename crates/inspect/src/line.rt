// A line of a text: its bytes, its fields, and the columns that hold for it.
ghost use Rattle.std.specs.Prelude.{◌≡◌};
ghost use Rattle.text.specs.Numbered.{numbered};
ghost use Rattle.inspect.specs.Line.{printable_front, FieldIs, element_at, column_of, is_present, first_present, columns_before};

use crate::part;
use element::ELEMENTS;
use text::lines::{Field, field_at, is_printable};
use text::part::{at, front, tail};

// Where the first byte outside 0x20 to 0x7E stands in a line; the line's length where there is none.
#[tactic(auto, unfolding(crate::specs::Line::printable_front))]
pub fn first_wrong(line: &[u8]) -> usize
    ensures { result ≡ printable_front line.now }
{
    for (i, byte) in line.iter().enumerate() {
        if !is_printable(*byte) {
            return i;
        }
    }
    line.len()
}

// The field of a line at a position, counted from 1; past the last one the last.
pub fn field(line: &[u8], position: usize) -> Field
    ensures { FieldIs line.now position result.value.start result.value.length result.till }
{
    let index = position.saturating_sub(1).min(part::count(line, b'|'));
    field_at(line, part::start(line, index, b'|'))
}

// The number of the element that a column line names at a position.
#[tactic(auto, unfolding(crate::specs::Line::element_at))]
pub fn element_at(columns: &[u8], position: usize) -> Option<usize>
    ensures { result ≡ numbered (element_at columns.now position) }
{
    let name = field(columns, position).value;
    element::name::number(front(tail(columns, name.start), name.length))
}

// The position of an element in a column line, counted from 1; that of element 0 is the first at which no element is named.
pub fn column_of(columns: &[u8], element: usize) -> Option<usize>
    ensures { result ≡ numbered (column_of columns.now element) }
{
    for index in 0..=part::count(columns, b'|') {
        if element_at(columns, index + 1).unwrap_or(0) == element {
            return Some(index + 1);
        }
    }
    None
}

// The lowest element number from `first` to `last`, counted from 1, whose column stands in the column line and whose field in the data line
// is not empty.
#[tactic(auto, unfolding(crate::specs::Line::present_from, crate::specs::Line::first_present))]
pub fn first_present(line: &[u8], columns: &[u8], first: usize, last: usize) -> Option<usize>
    ensures { result ≡ numbered (first_present line.now columns.now first last) }
{
    for element in first..=last.min(ELEMENTS) {
        if is_present(line, columns, element) {
            return Some(element);
        }
    }
    None
}

// Whether the column of an element stands in the column line and its field in the data line is not empty.
#[tactic(auto, using(crate::proofs::LineLaws::field_size), unfolding(crate::specs::Line::is_present))]
fn is_present(line: &[u8], columns: &[u8], element: usize) -> bool
    ensures { result ≡ is_present line.now columns.now element }
{
    match column_of(columns, element) {
        Some(column) => (0 < element) & (0 < field(line, column).value.length),
        None => false,
    }
}

// Where the column line starts that holds for the line of a number, counted from 0: after the last line before it that begins with `#`;
// 0 where there is none, since then its callers look at the first line.
#[tactic(auto, unfolding(crate::specs::Line::columns_before, crate::specs::Part::part_start))]
pub fn columns_before(text: &[u8], number: usize) -> usize
    ensures { result ≡ columns_before text.now number }
{
    let mut columns: usize = 0;
    let mut from: usize = 0;
    for _ in 0..number {
        let next = part::after(text, from, b'\n');
        if at(text, from) == b'#' {
            columns = next;
        }
        from = next;
    }
    columns
}

// Two texts compared by the observations that they read as.
#![tactic(auto)]

ghost use Rattle.std.specs.Prelude.{◌≡◌, ◌<◌};
ghost use Rattle.text.specs.Numbered.{numbered};
ghost use Rattle.element.specs.Table.{elements};
ghost use Rattle.report.specs.Report.{read as read_of};
ghost use Rattle.report.specs.Index.{noted_value};
ghost use Rattle.comparison.specs.Comparison.{differs_from, compared_of};
ghost use Rattle.comparison.specs.Steps.{NotesAll};

use element::ELEMENTS;
use inspect::ROWS;
use refusal::Refusal;
use report::index::{BLANK, Row, index, value_of};
use text::part::same;

// What comparing two texts comes to: the same list of so many observations; the first observation in which they differ, counted from 1, and
// the number of the first element whose values differ there, none where one list ends before it; or the refusal of the first text, or else
// of the second. These are four outcomes and no answer with a refusal, since either text may be refused.
#[derive(Clone, Copy)]
pub enum Compared {
    Same(usize),
    Differ(usize, Option<usize>),
    FirstRefused(Refusal),
    SecondRefused(Refusal),
}

// Two texts compared.
pub fn compare(first: &[u8], second: &[u8]) -> Compared
    ensures { result ≡ compared_of (read_of first.now) (read_of second.now) }
{
    let mut rows = [BLANK; ROWS];
    match index(first, 0, &mut rows) {
        Ok(count) => compare_second(first, &rows, count, second),
        Err(refusal) => Compared::FirstRefused(refusal),
    }
}

// A report of so many observations, by its index, compared with a second text.
fn compare_second(first: &[u8], rows: &[Row], count: usize, second: &[u8]) -> Compared
    requires { NotesAll first.now rows.now count }
    ensures { result ≡ compared_of (read_of first.now) (read_of second.now) }
{
    let mut second_rows = [BLANK; ROWS];
    match index(second, 0, &mut second_rows) {
        Ok(second_count) => compare_rows(first, rows, count, second, &second_rows, second_count),
        Err(refusal) => Compared::SecondRefused(refusal),
    }
}

// Two reports of so many observations each, by their indexes, compared row by row.
fn compare_rows(
    first: &[u8],
    rows: &[Row],
    count: usize,
    second: &[u8],
    second_rows: &[Row],
    second_count: usize,
) -> Compared
    requires { NotesAll first.now rows.now count × NotesAll second.now second_rows.now second_count }
    ensures { result ≡ compared_of (read_of first.now) (read_of second.now) }
{
    let both = count.min(second_count);
    for row in 0..both {
        let element = first_differing(first, rows, second, second_rows, row);
        if element.is_some() {
            return Compared::Differ(row + 1, element);
        }
    }
    if count == second_count {
        Compared::Same(count)
    } else {
        Compared::Differ(both + 1, None)
    }
}

// The number of the first element whose values, read off two indexes, differ in a row.
fn first_differing(
    first: &[u8],
    rows: &[Row],
    second: &[u8],
    second_rows: &[Row],
    row: usize,
) -> Option<usize>
    ensures { result ≡ numbered (differs_from elements 0 (noted_value first.now rows.now row) (noted_value second.now second_rows.now row)) }
{
    for element in 0..ELEMENTS {
        let value = value_of(first, rows, row, element);
        let second_value = value_of(second, second_rows, row, element);
        if !same(value, second_value) {
            return Some(element + 1);
        }
    }
    None
}

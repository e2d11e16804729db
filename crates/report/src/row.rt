// A data line: its fields one by one, and what its observation must hold.
ghost use Rattle.std.specs.Prelude.{◌≡◌, ◌<◌, length as length_of};
ghost use Rattle.element.specs.Table.{elements};
ghost use Rattle.report.specs.Inner.{mark_on, held_by, noted_in, LineIn, FieldsAre, RowIs};

use crate::ROW_LIMIT;
use crate::columns::Columns;
use crate::index::Row;
use crate::line::Line;
use element::form;
use element::observation::{is_radar, observation_fault};
use refusal::{Fault, Kind};

// What the values passed so far tell of their observation: the set of present elements, whether sys is WGS84, whether ctr is 399.
#[derive(Clone, Copy, Default)]
pub struct Marks {
    pub present: u64,
    pub wgs84: bool,
    pub earth: bool,
}

// A data line with k before it in the text, which is the first of its block or stands after rows that are radar or not: 14, 18, its fields, its
// observation, which is noted in a row of the index, 21. It says whether its observation is radar.
pub(crate) fn data_line(
    report: &[u8],
    line: Line,
    columns: &Columns,
    row: &mut Row,
    k: usize,
    before: Option<bool>,
) -> Result<bool, Fault>
    requires { LineIn report.now line.from line.till line.fields }
    ensures { RowIs report.now columns.now row.new line.from line.till k before result }
{
    if k >= ROW_LIMIT {
        return Err(Fault {
            kind: Kind::TooManyRows,
            place: 0,
        });
    }
    if line.fields != columns.as_slice().len() {
        return Err(Fault {
            kind: Kind::FieldCountDiffers,
            place: 0,
        });
    }
    let marks = take_fields(report, line, columns, row)?;
    row.present = marks.present;
    held(marks, before)
}

// Whether the observation of a data line whose fields are right is radar, unless it does not hold what it must or is of another kind than the
// rows before it.
fn held(marks: Marks, before: Option<bool>) -> Result<bool, Fault>
    ensures { result ≡ held_by marks before }
{
    observation_fault(marks.present, marks.wgs84, marks.earth)?;
    let radar = is_radar(marks.present);
    if before.unwrap_or(radar) == radar {
        return Ok(radar);
    }
    Err(Fault {
        kind: Kind::KindsMixed,
        place: 0,
    })
}

// The fields of a data line: the first fault, or the marks of its observation; where each value lies is noted in the row.
fn take_fields(report: &[u8], line: Line, columns: &Columns, row: &mut Row) -> Result<Marks, Fault>
    requires { LineIn report.now line.from line.till (length_of columns.now) }
    ensures { FieldsAre report.now columns.now row.new line.from line.till result }
{
    let text = &report[line.from..line.till];
    let mut marks = Marks::default();
    let mut at: usize = 0;
    for (k, column) in columns.as_slice().iter().enumerate() {
        let field = text::lines::field_at(text, at);
        let start = field.value.start;
        let end = start + field.value.length;
        let value = &text[start..end];
        let column = usize::from(*column);
        if let Err(kind) = form::fault(column, value) {
            return Err(Fault { kind, place: k + 1 });
        }
        marks = marked(marks, column, value);
        note(row, column, line.from + start, field.value.length);
        at = field.till + 1;
    }
    Ok(marks)
}

// Notes in a row where the value of an element lies; an absent one is not noted.
fn note(row: &mut Row, element: usize, start: usize, length: usize)
    requires { (element < elements) × (start < 65536) × (length < 65536) }
    ensures { row.new ≡ noted_in row.old element start length }
{
    if length != 0 {
        row.starts[element] = start as u16;
        row.lengths[element] = length as u16;
    }
}

// The marks with one value more.
fn marked(marks: Marks, element: usize, value: &[u8]) -> Marks
    requires { element < elements }
    ensures { result ≡ mark_on marks element value.now }
{
    if value.is_empty() {
        return marks;
    }
    let present = marks.present | (1u64 << element);
    if element == 8 {
        let wgs84 = text::part::same(value, b"WGS84");
        return Marks {
            present,
            wgs84,
            ..marks
        };
    }
    if element == 9 {
        let earth = text::part::same(value, b"399");
        return Marks {
            present,
            earth,
            ..marks
        };
    }
    Marks { present, ..marks }
}

// Writing the record of an observation that an index notes.
ghost use Rattle.std.specs.Prelude.{◌≡◌, ◌-◌, ◌*◌, ◌≤◌, ◌<◌, length};
ghost use Rattle.element.specs.Form.{value_of};
ghost use Rattle.report.specs.Index.{AcceptedIs, noted_value};
ghost use Rattle.night.specs.Record.{record_bytes};
ghost use Rattle.night.specs.List.{record_size, list_with, written_paper};
ghost use Rattle.night.specs.Inner.{Writes, noted_fields, place_answer};

use crate::RECORD_SIZE;
use crate::writing::put_record;
use element::form;
use element::observation::is_radar;
use refusal::{Kind, Refusal};
use report::index::{Row, value_of};
use std::ops::RangeBounds;
use value::Value;

// Indices of the elements stn, obsTime, ra and dec.
const STN: usize = 7;

const OBS_TIME: usize = 14;

const RA: usize = 16;

const DEC: usize = 17;

// Writes the record of an observation of a report of so many, which the first row of an index notes.
pub(crate) fn write_noted(
    report: &[u8],
    rows: &[Row],
    count: usize,
    observation: usize,
    list: &mut [u8],
) -> Result<(), Refusal>
    requires { AcceptedIs report.now (observation - 1) 1 rows.now count × (0 < length rows.now) }
    ensures { Writes report.now observation list.old (written_paper result) list.new }
{
    answer_at(count, is_radar(rows[0].present), observation, list.len())?;
    write_at(report, rows, 0, observation, list);
    Ok(())
}

// What writing the record of a number answers, of a report of so many observations to a list of so many bytes, where the observation is radar
// or not.
fn answer_at(count: usize, radar: bool, number: usize, room: usize) -> Result<(), Refusal>
    ensures { written_paper result ≡ place_answer count radar number room }
{
    if !(1..=count).contains(&number) {
        return Err(Refusal::of_request(Kind::NoObservation));
    }
    if radar {
        return Err(Refusal::of_request(Kind::NotOptical));
    }
    if room / RECORD_SIZE < number {
        return Err(Refusal::of_request(Kind::ListTooShort));
    }
    Ok(())
}

// Writes the record of the observation that a row of an index notes at the place of a number, for which the list has room.
fn write_at(report: &[u8], rows: &[Row], row: usize, number: usize, list: &mut [u8])
    requires { (1 ≤ number) × (number * record_size ≤ length list.old) }
    ensures { list.new ≡ list_with number (record_bytes (noted_fields report.now rows.now row number)) list.old }
{
    let station = value_of(report, rows, row, STN);
    let time = noted_value(report, rows, row, OBS_TIME);
    let ra = noted_value(report, rows, row, RA);
    let dec = noted_value(report, rows, row, DEC);
    let place = (number - 1) * RECORD_SIZE;
    put_record(number, station, time, ra, dec, &mut list[place..]);
}

// The value of an element, by its index, in the observation that a row of an index notes.
fn noted_value(report: &[u8], rows: &[Row], row: usize, element: usize) -> Result<Value, Kind>
    ensures { result ≡ value_of element (noted_value report.now rows.now row element) }
{
    form::value(element, value_of(report, rows, row, element))
}

// The night list: for each observation of an accepted report one record of 40 bytes, records one after another.
#![tactic(auto)]

pub mod answer;
mod list;
mod noted;
mod record;
mod writing;

// How many bytes a record has.
pub const RECORD_SIZE: usize = 40;

ghost use Rattle.std.specs.Prelude.{◌≡◌};
ghost use Rattle.report.specs.Report.{read as read_of};
ghost use Rattle.night.specs.List.{written_paper, written_answer, list_after, listed_paper, list_answer, recorded_paper, record_answer};

use answer::Record;
use list::{first_bad, record_at};
use noted::write_noted;
use record::record_of;
use refusal::{Kind, Refusal};
use report::index::{BLANK, index};
use std::ops::RangeBounds;

// Writes the record of an observation of a report at its place in the list, or says why nothing is written. It makes an index
// of that one observation, with a row more for the reader's own use.
pub fn write(report: &[u8], observation: usize, list: &mut [u8]) -> Result<(), Refusal>
    ensures { (written_paper result ≡ written_answer (read_of report.now) observation list.old) × (list.new ≡ list_after (read_of report.now) observation list.old) }
{
    let mut rows = [BLANK; 2];
    let count = index(report, observation.saturating_sub(1), &mut rows)?;
    write_noted(report, &rows, count, observation, list)
}

// How many records a list has, or its first bad one.
pub fn check(list: &[u8]) -> Result<usize, Refusal>
    ensures { listed_paper result ≡ list_answer list.now }
{
    match first_bad(list) {
        None => Ok(list.len().div_ceil(RECORD_SIZE)),
        Some(number) => Err(Refusal {
            kind: Kind::BadRecord,
            line: 0,
            place: number,
        }),
    }
}

// What the record of a number holds, counted from 1, or why nothing is given.
pub fn read(list: &[u8], number: usize) -> Result<Record, Refusal>
    ensures { recorded_paper result ≡ record_answer list.now number }
{
    let count = check(list)?;
    if !(1..=count).contains(&number) {
        return Err(Refusal::of_request(Kind::NoObservation));
    }
    Ok(record_of(record_at(list, number)))
}

// A record read: its fields, and whether it is right.
ghost use Rattle.std.specs.Prelude.{◌≡◌, ◌≤◌, ◌<◌, ◌^◌, take, drop};
ghost use Rattle.text.specs.Lines.{trim};
ghost use Rattle.text.specs.Part.{same};
ghost use Rattle.night.specs.Record.{spelt_at, unpadded, is_station, is_day, is_ascension, is_declination, is_record};
ghost use Rattle.night.specs.Inner.{numbers_of, is_within_numbers, is_whole};

use crate::RECORD_SIZE;
use crate::answer::Record;
use report::ROW_LIMIT;
use std::ops::RangeBounds;
use text::class::Class;
use text::lines::trimmed;
use text::output::low;
use text::part::{front, tail};
use text::{class, part};

// The days of 0001-01-01 and 9999-12-31.
const FIRST_DAY: i64 = -678575;

const LAST_DAY: i64 = 2973483;

// The microseconds of a day.
const DAY: u64 = 86400000000;

// The units of 360 degrees, of -90 and of 90.
const FULL_CIRCLE: i64 = 360000000000;

const SOUTH_POLE: i64 = -90000000000;

const NORTH_POLE: i64 = 90000000000;

// Whether bytes are a right record at the place of a number. Their length is tested first, so that the compiler reads each number at once.
#[tactic(auto, using(crate::proofs::TestLaws::test_is))]
pub(crate) fn is_record(number: usize, bytes: &[u8]) -> bool
    ensures { result ≡ is_record number bytes.now }
{
    if !is_whole(bytes) {
        return false;
    }
    let fields = record_of(bytes);
    fields.number == number as u64 && is_within(fields, station_of(bytes))
}

// What a record's bytes hold, as numbers.
pub(crate) fn record_of(bytes: &[u8]) -> Record
    ensures { result ≡ numbers_of bytes.now }
{
    Record {
        number: number_at(bytes, 0, 4) + 1,
        station: number_at(bytes, 4, 4),
        day: i64::from((number_at(bytes, 8, 4) as u32).cast_signed()),
        microseconds: number_at(bytes, 12, 8),
        ra: number_at(bytes, 20, 8).cast_signed(),
        dec: number_at(bytes, 28, 8).cast_signed(),
    }
}

// The number that so many bytes from a place on spell, low byte first.
fn number_at(bytes: &[u8], from: usize, count: usize) -> u64
    requires { count ≤ 8 }
    ensures { (result ≡ spelt_at from count bytes.now) × (result < 256 ^ count) }
{
    low(tail(bytes, from), count)
}

// Whether bytes are as many as a record has, with zeros at the end.
fn is_whole(bytes: &[u8]) -> bool
    ensures { result ≡ is_whole bytes.now }
{
    bytes.len() == RECORD_SIZE && number_at(bytes, 36, 4) == 0
}

// The station of a record's bytes, without the blank after a three-letter one.
fn station_of(bytes: &[u8]) -> &[u8]
    ensures { result.now ≡ unpadded (take 4 (drop 4 bytes.now)) }
{
    let four = front(tail(bytes, 4), 4);
    if part::at(four, 3) == b' ' {
        return front(four, 3);
    }
    four
}

// Whether the fields of a record and its station lie where an accepted observation's do.
fn is_within(fields: Record, station: &[u8]) -> bool
    ensures { result ≡ is_within_numbers fields station.now }
{
    (1..=ROW_LIMIT as u64).contains(&fields.number)
        && is_station(station)
        && is_day(fields.day)
        && fields.microseconds < DAY
        && is_ascension(fields.ra)
        && is_declination(fields.dec)
}

// Whether a text is three or four alphanumerics with no blank at either end.
#[tactic(auto, unfolding(crate::specs::Record::is_station))]
fn is_station(text: &[u8]) -> bool
    ensures { result ≡ is_station text.now }
{
    class::is_only(Class::Alphanumeric, text) && (3..=4).contains(&text.len()) && is_trimmed(text)
}

// Whether a text has no blank at either end.
fn is_trimmed(text: &[u8]) -> bool
    ensures { result ≡ same (trim text.now) text.now }
{
    let span = trimmed(text);
    part::same(front(tail(text, span.start), span.length), text)
}

// Whether a day is one of the years 0001 to 9999.
#[tactic(auto, using(crate::proofs::DayLimits::first_is, crate::proofs::DayLimits::last_is), unfolding(crate::specs::Record::is_day))]
fn is_day(day: i64) -> bool
    ensures { result ≡ is_day day }
{
    (FIRST_DAY..=LAST_DAY).contains(&day)
}

// Whether a right ascension lies from 0 to below 360 degrees.
#[tactic(auto, unfolding(crate::specs::Record::is_ascension))]
fn is_ascension(units: i64) -> bool
    ensures { result ≡ is_ascension units }
{
    (0..FULL_CIRCLE).contains(&units)
}

// Whether a declination lies from -90 to 90 degrees.
#[tactic(auto, unfolding(crate::specs::Record::is_declination))]
fn is_declination(units: i64) -> bool
    ensures { result ≡ is_declination units }
{
    (SOUTH_POLE..=NORTH_POLE).contains(&units)
}

// The bytes of a record, each field written into the rest of the lent output.
ghost use Rattle.std.specs.Prelude.{◌≡◌, ◌++◌, ◌-◌, ◌≤◌, length, get_or};
ghost use Rattle.text.specs.Lines.{blank};
ghost use Rattle.text.specs.Output.{over, low_bytes};
ghost use Rattle.night.specs.Record.{fields_from, day_in, microseconds_in, units_in, padded, signed_bytes, record_bytes};
ghost use Rattle.night.specs.List.{record_size};

use refusal::Kind;
use text::output::put_low;
use value::Value;

// Writes the record of a number, a station and the values of obsTime, ra and dec.
pub(crate) fn put_record(
    number: usize,
    station: &[u8],
    time: Result<Value, Kind>,
    ra: Result<Value, Kind>,
    dec: Result<Value, Kind>,
    output: &mut [u8],
)
    requires { (1 ≤ number) × (record_size ≤ length output.old) }
    ensures { output.new ≡ over (record_bytes (fields_from number station.now time ra dec)) output.old }
{
    put_number(number, station, output);
    put_time(time, &mut output[8..]);
    put_position(ra, dec, &mut output[20..]);
}

// Writes the number less one and the station.
fn put_number(number: usize, station: &[u8], output: &mut [u8])
    requires { (1 ≤ number) × (8 ≤ length output.old) }
    ensures { output.new ≡ over (low_bytes 4 (number - 1) ++ padded station.now) output.old }
{
    put_low((number - 1) as u64, 4, output);
    put_station(station, &mut output[4..]);
}

// Writes a station in four bytes, a blank after a three-letter one.
fn put_station(station: &[u8], output: &mut [u8])
    requires { 4 ≤ length output.old }
    ensures { output.new ≡ over (padded station.now) output.old }
{
    let count = station.len().min(4);
    output[..4].fill(b' ');
    output[..count].copy_from_slice(&station[..count]);
}

// Writes the day and the microseconds of a time.
fn put_time(time: Result<Value, Kind>, output: &mut [u8])
    requires { 12 ≤ length output.old }
    ensures { output.new ≡ over (signed_bytes 4 (day_in time) ++ low_bytes 8 (microseconds_in time)) output.old }
{
    put_low(day_in(time).cast_unsigned(), 4, output);
    put_low(microseconds_in(time), 8, &mut output[4..]);
}

// Writes a right ascension, a declination and the zeros at the record's end.
fn put_position(ra: Result<Value, Kind>, dec: Result<Value, Kind>, output: &mut [u8])
    requires { 20 ≤ length output.old }
    ensures { output.new ≡ over ((signed_bytes 8 (units_in ra) ++ signed_bytes 8 (units_in dec)) ++ low_bytes 4 0) output.old }
{
    put_low(units_in(ra).cast_unsigned(), 8, output);
    put_low(units_in(dec).cast_unsigned(), 8, &mut output[8..]);
    put_low(0, 4, &mut output[16..]);
}

// The day of a time, 0 of another value and of a fault.
fn day_in(value: Result<Value, Kind>) -> i64
    ensures { result ≡ day_in value }
{
    match value {
        Ok(Value::Time(day, _)) => day,
        _ => 0,
    }
}

// The microseconds of a time, 0 of another value and of a fault.
fn microseconds_in(value: Result<Value, Kind>) -> u64
    ensures { result ≡ microseconds_in value }
{
    match value {
        Ok(Value::Time(_, microseconds)) => microseconds,
        _ => 0,
    }
}

// The units of an angle, 0 of another value and of a fault.
fn units_in(value: Result<Value, Kind>) -> i64
    ensures { result ≡ units_in value }
{
    match value {
        Ok(Value::Angle(units)) => units,
        _ => 0,
    }
}

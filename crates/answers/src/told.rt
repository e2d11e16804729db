// What is printed of numbers in more than one answer.
use std::fmt;

// So many things of a name.
#[derive(Clone, Copy)]
pub(crate) struct Counted {
    pub(crate) number: usize,
    pub(crate) name: &'static str,
}

impl fmt::Display for Counted {
    fn fmt<W: fmt::Write>(&self, f: &mut fmt::Formatter<W>) -> fmt::Result {
        let number = self.number;
        let name = self.name;
        if number == 1 {
            write!(f, "1 {name}")
        } else {
            write!(f, "{number} {name}s")
        }
    }
}

// The microseconds of a day.
#[derive(Clone, Copy)]
pub(crate) struct TimeOfDay(pub(crate) u64);

impl fmt::Display for TimeOfDay {
    fn fmt<W: fmt::Write>(&self, f: &mut fmt::Formatter<W>) -> fmt::Result {
        let microseconds = self.0 % 1000000;
        let seconds = self.0 / 1000000;
        let hours = seconds / 3600;
        let minutes = seconds / 60 % 60;
        let seconds = seconds % 60;
        write!(f, "{hours:02}:{minutes:02}:{seconds:02}.{microseconds:06}")
    }
}

// An angle in units of 0.000000001 degree.
#[derive(Clone, Copy)]
pub(crate) struct Degrees(pub(crate) i64);

impl fmt::Display for Degrees {
    fn fmt<W: fmt::Write>(&self, f: &mut fmt::Formatter<W>) -> fmt::Result {
        let sign = if self.0 < 0 { "-" } else { "" };
        let degrees = self.0.unsigned_abs() / 1000000000;
        let units = self.0.unsigned_abs() % 1000000000;
        write!(f, "{sign}{degrees}.{units:09}")
    }
}

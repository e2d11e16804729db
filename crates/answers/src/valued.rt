// A value as an exact number.
use crate::shown::{Asked, print_asked};
use refusal::Refusal;
use std::io;
use value::Value;
use words::print;

// Prints the value of an element of an observation, and what its numbers mean.
pub fn print_valued(
    rt: &impl Print,
    answer: Result<Option<Value>, Refusal>,
    asked: Asked,
) -> io::Result<()> {
    print::value_line(rt, answer)?;
    print_asked(rt, asked)?;
    match answer {
        Ok(Some(value)) => print_meaning(rt, value),
        Ok(None) => println!(rt; " is not there."),
        Err(_) => Ok(()),
    }
}

// Prints what the numbers of a value mean.
fn print_meaning(rt: &impl Print, value: Value) -> io::Result<()> {
    match value {
        Value::Whole(_) => println!(rt; ": a whole number."),
        Value::Decimal(_, _) => println!(rt;
            ": its digits as a whole number, and how many of them are places."
        ),
        Value::Time(_, _) => println!(rt;
            ": the day, 0 on 1858-11-17, and the microseconds of the day."
        ),
        Value::Angle(_) => println!(rt; ": in units of 0.000000001 degree."),
        Value::Scaled(negative, high, low, power) => {
            print!(rt; ": ")?;
            print::in_parts(rt, negative, high, low)?;
            println!(rt; " x 10^{power}, its digits as a whole number times a power of ten.")
        }
        Value::NoValue => println!(rt; " has no value as a number."),
    }
}

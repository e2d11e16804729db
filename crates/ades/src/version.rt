// Which program this is.
use element::ELEMENTS;
use report::{ROW_LIMIT, TEXT_LIMIT};
use std::io;
use words::print;

// Obeys `version`.
pub(crate) fn obey(rt: &impl Print) -> io::Result<()> {
    print::version(rt)?;
    println!(rt;
        "\nADES pipe-separated text, edition 2022, optical and radar observations. Elements: {ELEMENTS}. \
         Limits of a report: {TEXT_LIMIT} bytes, {ROW_LIMIT} observations."
    )
}

// What to do about a refusal, from the line that it falls on.
use crate::places::FaultyLine;
use crate::{elements, kinds, names, refusals};
use inspect::oddity::{Oddity, first_oddity};
use refusal::Kind;
use std::io;

// The numbers of three elements that belong to some radar observations alone.
const DELAY: usize = 32;

const RMS_DELAY: usize = 33;

const RMS_DOPPLER: usize = 35;

// Prints what to do about the fault of a line.
pub(crate) fn print_advice(rt: &impl Print, faulty: FaultyLine) -> io::Result<()> {
    let kind = faulty.fault.kind;
    let place = faulty.fault.place;
    match kind {
        Kind::TooWide | Kind::WrongForm | Kind::OutOfRange => print_rule(rt, faulty.element()),
        Kind::ElementMissing => print_missing(rt, faulty.radar(), place),
        Kind::GroupIncomplete => print_need(rt, faulty, place),
        Kind::KindsMixed => print_mixed(rt, faulty.radar()),
        Kind::ElementForeign => print_foreign(rt, faulty.radar(), place),
        Kind::UnknownColumn => {
            names::print_hint(rt, faulty.name())?;
            print_odd(rt, faulty)
        }
        Kind::WrongByte | Kind::VersionExpected | Kind::FieldCountDiffers => print_odd(rt, faulty),
        _ => refusals::print_advice(rt, kind),
    }
}

// Prints what a value of an element may be, if there is one.
fn print_rule(rt: &impl Print, element: Option<usize>) -> io::Result<()> {
    match element {
        Some(element) => elements::print_rule(rt, element),
        None => Ok(()),
    }
}

// Prints what an observation of its kind must hold, where one element is missing; that of delay stands for delay and doppler.
fn print_missing(rt: &impl Print, radar: Option<usize>, missing: usize) -> io::Result<()> {
    if missing == DELAY {
        println!(rt; "It has neither delay nor doppler.")?;
    }
    if radar.is_none() {
        return kinds::print_optical(rt);
    }
    print_which(rt, radar)?;
    kinds::print_radar(rt)
}

// Prints which kind an observation is, from the first element that makes it radar, if one does.
fn print_which(rt: &impl Print, radar: Option<usize>) -> io::Result<()> {
    print!(rt; "The observation is ")?;
    kinds::print_kind(rt, radar)
}

// Prints which kind a data line is, and which the rows before it are.
fn print_mixed(rt: &impl Print, radar: Option<usize>) -> io::Result<()> {
    let before = match radar {
        Some(_) => "optical",
        None => "radar",
    };
    print!(rt; "The block's rows before it are {before}; this one is ")?;
    kinds::print_kind(rt, radar)?;
    refusals::print_advice(rt, Kind::KindsMixed)
}

// Prints why an element is foreign to a data line, and what to do: beside doppler that is delay or rmsDelay, without it rmsDoppler, and an
// optical observation's element in any radar one.
fn print_foreign(rt: &impl Print, radar: Option<usize>, foreign: usize) -> io::Result<()> {
    match foreign {
        DELAY | RMS_DELAY => println!(rt;
            "It has doppler, and beside doppler delay and rmsDelay are foreign.\n\
             Write two observations: one with delay and rmsDelay, one with doppler and rmsDoppler."
        ),
        RMS_DOPPLER => println!(rt;
            "It has no doppler, and without doppler rmsDoppler is foreign.\n\
             Give doppler and rmsDoppler, or delay and rmsDelay."
        ),
        _ => print_optical(rt, radar, foreign),
    }
}

// Prints that an optical observation's element stands in a radar one, from the first element that makes it so.
fn print_optical(rt: &impl Print, radar: Option<usize>, foreign: usize) -> io::Result<()> {
    print_which(rt, radar)?;
    print!(rt; "Leave ")?;
    elements::print_name(rt, foreign)?;
    println!(rt;
        " out, or, where the observation is optical, trx, rcv, delay, rmsDelay, doppler, rmsDoppler, frq and com."
    )
}

// Prints which element needs the missing one.
fn print_need(rt: &impl Print, faulty: FaultyLine, missing: usize) -> io::Result<()> {
    if let Some(present) = needing(faulty, missing) {
        elements::print_name(rt, present)?;
        print!(rt; " needs ")?;
        elements::print_name(rt, missing)?;
        println!(rt; ".")?;
    }
    refusals::print_advice(rt, Kind::GroupIncomplete)
}

// The number of the first element of a data line that needs the missing one: one of the location, or else a covariance; one of the
// photometry; or the correlation.
fn needing(faulty: FaultyLine, missing: usize) -> Option<usize> {
    match missing {
        0..=13 => faulty
            .first_present(9, 13)
            .or_else(|| faulty.first_present(38, 43)),
        14..=20 => faulty.first_present(21, 21),
        _ => faulty.first_present(23, 27),
    }
}

// Prints what is odd about a line, and what to do about it; what to do about its fault where nothing is.
fn print_odd(rt: &impl Print, faulty: FaultyLine) -> io::Result<()> {
    match first_oddity(faulty.text) {
        Some(Oddity::ByteOrderMark) => println!(rt;
            "The line begins with a byte order mark, EF BB BF: save the text without one."
        ),
        Some(Oddity::Tab) => println!(rt;
            "It is a tab: fields are parted by bars and padded with blanks."
        ),
        Some(Oddity::CarriageReturn) => println!(rt;
            "It is a carriage return: a line ends with a line feed alone."
        ),
        Some(Oddity::BlankLine) => println!(rt; "The line is blank: take it out."),
        Some(Oddity::BlankAfterVersion) => println!(rt;
            "A blank follows the version line: it is `# version=2022`, byte by byte."
        ),
        Some(Oddity::OtherEdition) => println!(rt;
            "This box takes edition 2022 alone: the version line is `# version=2022`, byte by byte."
        ),
        Some(Oddity::HeaderLine) => println!(rt;
            "A header line, as `# observatory`, is outside this box's scope: take it out."
        ),
        None => refusals::print_advice(rt, faulty.fault.kind),
    }
}

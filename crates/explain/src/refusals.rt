// The refusals in words.
ghost use Rattle.std.specs.Prelude.{◌≡◌, ◌+◌, ◌<◌, IfSome};
ghost use Rattle.refusal.specs.Number.{number_of};

use crate::kinds;
use element::ELEMENTS;
use refusal::Kind;
use report::{ROW_LIMIT, TEXT_LIMIT};
use std::io;

// How many refusals there are.
pub const REFUSALS: usize = 24;

// What is said of a kind of refusal: the rule that is broken, what to do, what line and place are, which definition states the rule.
struct Words {
    kind: Kind,
    rule: &'static str,
    advice: &'static str,
    line: &'static str,
    place: &'static str,
    definition: &'static str,
}

// What is said of each kind, in the order of their numbers.
static WORDS: [Words; REFUSALS] = [
    Words {
        kind: Kind::TextTooLong,
        rule: "The text is longer than a report may be.",
        advice: "Part it into several reports.",
        line: "0",
        place: "0",
        definition: "`read` (crates/report/specs/Report.antt)",
    },
    Words {
        kind: Kind::NoLineEnd,
        rule: "The line has no line feed.",
        advice: "End the last line with a line feed.",
        line: "the line",
        place: "0",
        definition: "`readFrom` (crates/report/specs/Report.antt)",
    },
    Words {
        kind: Kind::WrongByte,
        rule: "The line has a byte outside 0x20 to 0x7E.",
        advice: "Take the byte out, or write it in plain ASCII.",
        line: "the line",
        place: "0",
        definition: "`step` (crates/report/specs/Report.antt)",
    },
    Words {
        kind: Kind::VersionExpected,
        rule: "A block starts with the line `# version=2022`, and no other line starts with `#`.",
        advice: "Begin the block with the line `# version=2022`, byte by byte.",
        line: "the line",
        place: "0",
        definition: "`step`, `other` (crates/report/specs/Report.antt)",
    },
    Words {
        kind: Kind::BlockUnfinished,
        rule: "The block has no column line or no data line.",
        advice: "Give it both, or take its version line out.",
        line: "the next version line, or the line after the last",
        place: "0",
        definition: "`opened`, `atEnd` (crates/report/specs/Report.antt)",
    },
    Words {
        kind: Kind::UnknownColumn,
        rule: "The column has a name that is no element's.",
        advice: "Name an element, letter by letter, or take the column out of every line of the block.",
        line: "the column line",
        place: "the column's position, counted from 1",
        definition: "`columnsFrom` (crates/report/specs/Report.antt)",
    },
    Words {
        kind: Kind::ColumnTwice,
        rule: "The column is named twice.",
        advice: "Take one of the two columns out of every line of the block.",
        line: "the column line",
        place: "the position of the second, counted from 1",
        definition: "`columnsFrom` (crates/report/specs/Report.antt)",
    },
    Words {
        kind: Kind::TooWide,
        rule: "The value is too wide.",
        advice: "Write it within its width: `ades element NAME` says which.",
        line: "the data line",
        place: "the column's position, counted from 1",
        definition: "`faultOf` (crates/element/specs/Form.antt)",
    },
    Words {
        kind: Kind::WrongForm,
        rule: "The value has the wrong form.",
        advice: "Write it in its form: `ades element NAME` says which.",
        line: "the data line",
        place: "the column's position, counted from 1",
        definition: "`faultOf` (crates/element/specs/Form.antt)",
    },
    Words {
        kind: Kind::OutOfRange,
        rule: "The value is out of its range or vocabulary.",
        advice: "Look at the value: `ades element NAME` says its range or its words.",
        line: "the data line",
        place: "the column's position, counted from 1",
        definition: "`faultOf` (crates/element/specs/Form.antt)",
    },
    Words {
        kind: Kind::ElementMissing,
        rule: "The observation lacks an element that it must have.",
        advice: "Give the observation that element.",
        line: "the data line",
        place: "the element's number; 1 stands for elements 1 to 4 of an optical observation, all missing, and for 1 and 2 of a radar \
            one; 32 for its delay and doppler, both missing",
        definition: "`faultIn` (crates/element/specs/Observation.antt)",
    },
    Words {
        kind: Kind::GroupIncomplete,
        rule: "The observation has a group of elements that is not complete.",
        advice: "Give the missing element, or leave those out that need it.",
        line: "the data line",
        place: "the number of the lowest missing element",
        definition: "`groupFault` (crates/element/specs/Observation.antt)",
    },
    Words {
        kind: Kind::CentreNotEarth,
        rule: "With sys WGS84 the ctr must be 399.",
        advice: "Write 399 as its ctr, or the sys that its position is in.",
        line: "the data line",
        place: "10, the number of ctr",
        definition: "`groupFault` (crates/element/specs/Observation.antt)",
    },
    Words {
        kind: Kind::TooManyRows,
        rule: "The report has more data lines than it may have.",
        advice: "Part it into several reports.",
        line: "the first data line past the limit",
        place: "0",
        definition: "`dataLine` (crates/report/specs/Report.antt)",
    },
    Words {
        kind: Kind::OutputTooShort,
        rule: "The output is shorter than the packed report.",
        advice: "Lend a longer one: `ades length` says how long, and as long as the report is always enough.",
        line: "0",
        place: "0",
        definition: "`packedAnswer` (crates/pack/specs/Promise.antt)",
    },
    Words {
        kind: Kind::NoObservation,
        rule: "The report has no observation, or the list no record, of that number.",
        advice: "`ades check` says how many observations a report has, `ades records` how many records a list has; both are numbered from \
            1.",
        line: "0",
        place: "0",
        definition: "`showingAnswer`, `valuedAnswer` (crates/report/specs/Answers.antt), `writtenAnswer`, `recordAnswer` \
            (crates/night/specs/List.antt)",
    },
    Words {
        kind: Kind::NoElement,
        rule: "There is no element of that number.",
        advice: "`ades element NAME` says the number of an element.",
        line: "0",
        place: "0",
        definition: "`showingAnswer`, `valuedAnswer` (crates/report/specs/Answers.antt)",
    },
    Words {
        kind: Kind::FieldCountDiffers,
        rule: "The line has not as many fields as there are columns.",
        advice: "Give the line a field for each column, empty where the element is absent.",
        line: "the data line",
        place: "0",
        definition: "`dataLine` (crates/report/specs/Report.antt)",
    },
    Words {
        kind: Kind::ListTooShort,
        rule: "The list has no room for that record.",
        advice: "Lend 40 bytes for each observation up to that one.",
        line: "0",
        place: "0",
        definition: "`writtenAnswer` (crates/night/specs/List.antt)",
    },
    Words {
        kind: Kind::BadRecord,
        rule: "No accepted observation at that place could have written this record.",
        advice: "Write the list anew from its report.",
        line: "0",
        place: "the record's number, counted from 1",
        definition: "`isRecord` (crates/night/specs/Record.antt)",
    },
    Words {
        kind: Kind::KindsMixed,
        rule: "The observation is of another kind than those before it in its block, and a block holds one kind, optical or radar.",
        advice: "Begin a new block before it: a version line and a column line.",
        line: "the data line",
        place: "0",
        definition: "`ofKind` (crates/report/specs/Report.antt)",
    },
    Words {
        kind: Kind::ElementForeign,
        rule: "The element is foreign to the kind of its observation.",
        advice: "Leave it out, or write it in an observation to which it belongs.",
        line: "the data line",
        place: "the number of the lowest such element",
        definition: "`radarFault` (crates/element/specs/Observation.antt)",
    },
    Words {
        kind: Kind::NotOptical,
        rule: "The observation is radar, and a night list has records of optical ones alone.",
        advice: "Write the list of a report that has no radar observation.",
        line: "0",
        place: "0",
        definition: "`writtenAnswer` (crates/night/specs/List.antt)",
    },
    Words {
        kind: Kind::CutsDiffer,
        rule: "The cuts are not those that measuring gives for this report.",
        advice: "Measure the report, and hand on the cuts as they are given, one for each block.",
        line: "0",
        place: "0",
        definition: "`writtenAnswer` (crates/pack/specs/Promise.antt)",
    },
];

// Where a kind stands in the order of their numbers, counted from 0.
pub(crate) fn index_of(kind: Kind) -> usize
    ensures { (result + 1 ≡ number_of kind) × (result < 24) }
{
    kind as usize - 1
}

// What is said of a kind.
fn words_of(kind: Kind) -> &'static Words {
    &WORDS[index_of(kind)]
}

// The kind of a number of the paper, if there is one.
pub fn of_number(number: u64) -> Option<Kind>
    ensures { IfSome result (λ kind. number_of kind ≡ number) }
{
    WORDS
        .iter()
        .map(|words| words.kind)
        .find(|kind| refusal::number(*kind) == number)
}

// Prints the rule that a kind of refusal stands for.
pub fn print_rule(rt: &impl Print, kind: Kind) -> io::Result<()> {
    println!(rt; "{}", words_of(kind).rule)?;
    print_limit(rt, kind)
}

// Prints what to do about a kind of refusal.
pub fn print_advice(rt: &impl Print, kind: Kind) -> io::Result<()> {
    println!(rt; "{}", words_of(kind).advice)
}

// Prints the definition that states the rule of a kind of refusal.
pub fn print_definition(rt: &impl Print, kind: Kind) -> io::Result<()> {
    println!(rt; "{}", words_of(kind).definition)
}

// Prints all that is said of a kind of refusal.
pub fn print_kind(rt: &impl Print, kind: Kind) -> io::Result<()> {
    let words = words_of(kind);
    print_rule(rt, kind)?;
    println!(rt; "{}", words.advice)?;
    print_kinds(rt, kind)?;
    println!(rt; "Line: {}", words.line)?;
    println!(rt; "Place: {}", words.place)?;
    println!(rt; "Rule: {}", words.definition)
}

// Prints the number and the rule of each kind that was told, where one says so of each in the order of their numbers.
pub(crate) fn print_told(rt: &impl Print, told: &[bool]) -> io::Result<()> {
    for (words, told) in WORDS.iter().zip(told) {
        if *told {
            println!(rt; "{}: {}", refusal::number(words.kind), words.rule)?;
        }
    }
    Ok(())
}

// Prints the limit that a rule speaks of, or what a record is, if it speaks of one.
fn print_limit(rt: &impl Print, kind: Kind) -> io::Result<()> {
    match kind {
        Kind::TextTooLong => println!(rt; "The limit is {TEXT_LIMIT} bytes."),
        Kind::TooManyRows => println!(rt; "The limit is {ROW_LIMIT} data lines."),
        Kind::NoElement => println!(rt; "The elements are numbered from 1 to {ELEMENTS}."),
        Kind::BadRecord => print_record(rt),
        _ => Ok(()),
    }
}

// Prints what each kind of observation must hold, or what may not stand in it, if a rule speaks of it.
fn print_kinds(rt: &impl Print, kind: Kind) -> io::Result<()> {
    match kind {
        Kind::ElementMissing => {
            kinds::print_optical(rt)?;
            kinds::print_radar(rt)
        }
        Kind::ElementForeign => kinds::print_foreign(rt),
        _ => Ok(()),
    }
}

// Prints what a record of the night list holds, byte by byte.
fn print_record(rt: &impl Print) -> io::Result<()> {
    println!(rt;
        "A record has 40 bytes, numbers low byte first and in two's complement; a list has at most {ROW_LIMIT} records.\n\
         Bytes 0 to 3: its number less one.\n\
         Bytes 4 to 7: stn, 3 or 4 alphanumerics without a blank at either end, a blank after 3.\n\
         Bytes 8 to 11: the day, -678575 to 2973483, which are 0001-01-01 and 9999-12-31.\n\
         Bytes 12 to 19: the microseconds of the day, 0 to 86399999999.\n\
         Bytes 20 to 27: ra, 0 to 359999999999, in units of 0.000000001 degree.\n\
         Bytes 28 to 35: dec, -90000000000 to 90000000000, in the same units.\n\
         Bytes 36 to 39: zero."
    )
}

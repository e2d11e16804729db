// The elements in words, by their numbers.
ghost use Rattle.std.specs.Prelude.{◌≡◌, IfSome};
ghost use Rattle.element.specs.Table.{name_of};

use element::ELEMENTS;
use element::name::put_whole;
use element::table::LONGEST;
use inspect::table::{Named, first_named};
use std::io;
use text::part::front;
use words::print;

// What is said of an element, by its name: what a value may be, which refusals one meets, what it is as a number, what the element needs
// beside it, and which definition states the rule.
struct Words {
    name: &'static str,
    rule: &'static str,
    refused: &'static str,
    value: &'static str,
    company: &'static str,
    definition: &'static str,
}

// What is said of several elements.
const DIGITS: &str = "its digits, and how many of them are places";

const SCALED: &str = "its digits as a whole number, and the power of ten to multiply them by";

const LOCATED: &str = "optical: needs sys, ctr, pos1, pos2 and pos3; radar: foreign";

const DECIMAL: &str = "`decimal` (crates/value/specs/Decimal.antt)";

const ALPHANUMERIC: &str = "`alphanumeric` (crates/value/specs/Characters.antt)";

const COVARIANCE: &str = "`covariance` (crates/value/specs/Covariance.antt)";

const COORDINATE: &str =
    "a decimal: perhaps a sign, then at most 13 bytes, digits and perhaps a point, which may come first or last";

// What is said of each element.
static WORDS: [Words; ELEMENTS] = [
    Words {
        name: "permID",
        rule: "a number from 1 to 61999999 without leading zero; or a comet's: 1 to 6 digits without leading zero, P or D, perhaps a \
            fragment as -A or -AB",
        refused: "9; 10 above 61999999 in eight digits",
        value: "none",
        company: "optical: one of permID, provID, artSat and trkSub is needed; radar: permID or provID is needed",
        definition: "`permID` (crates/value/specs/Designation.antt)",
    },
    Words {
        name: "provID",
        rule: "a minor planet, as 2016 AZ6: four digits, a blank, two capitals, perhaps a number from 1 to 61999; or a comet, as C/1996 \
            J1-A",
        refused: "9; 10 for a number above 61999 in five digits",
        value: "none",
        company: "optical: one of permID, provID, artSat and trkSub is needed; radar: permID or provID is needed",
        definition: "`provID` (crates/value/specs/Designation.antt)",
    },
    Words {
        name: "artSat",
        rule: "four digits, a minus, three digits, 1 to 3 capitals, as 1998-067A",
        refused: "9",
        value: "none",
        company: "optical: one of permID, provID, artSat and trkSub is needed; radar: foreign",
        definition: "`artSat` (crates/value/specs/Designation.antt)",
    },
    Words {
        name: "trkSub",
        rule: "1 to 8 letters, digits, underscores or inner blanks",
        refused: "8, 9",
        value: "none",
        company: "optical: one of permID, provID, artSat and trkSub is needed; radar: foreign",
        definition: ALPHANUMERIC,
    },
    Words {
        name: "obsID",
        rule: "1 to 25 letters, digits, underscores or inner blanks",
        refused: "8, 9",
        value: "none",
        company: "as you like",
        definition: ALPHANUMERIC,
    },
    Words {
        name: "obsSubID",
        rule: "at most 25 bytes of any kind",
        refused: "8",
        value: "none",
        company: "as you like",
        definition: "`free` (crates/value/specs/Characters.antt)",
    },
    Words {
        name: "mode",
        rule: "one of PHO ENC CCD MER MIC NOR VID PMT",
        refused: "10",
        value: "none",
        company: "optical: needed; radar: foreign",
        definition: "`mode` (crates/value/specs/Word.antt)",
    },
    Words {
        name: "stn",
        rule: "3 or 4 letters, digits, underscores or inner blanks",
        refused: "8, 9",
        value: "none",
        company: "optical: needed; radar: foreign",
        definition: ALPHANUMERIC,
    },
    Words {
        name: "sys",
        rule: "one of WGS84 ITRF IAU ICRF_AU ICRF_KM",
        refused: "10",
        value: "none",
        company: "optical: with ctr, pos1, pos2 and pos3, all or none, and needed with any of posCov11 to posCov33; radar: foreign",
        definition: "`system` (crates/value/specs/Word.antt)",
    },
    Words {
        name: "ctr",
        rule: "a whole number without leading zero, perhaps after a minus, no -0, at most 9 characters",
        refused: "8, 9",
        value: "a whole number",
        company: "optical: with sys, pos1, pos2 and pos3, all or none, needed with any of posCov11 to posCov33, and 399 where sys is \
            WGS84; radar: foreign",
        definition: "`centre` (crates/value/specs/Centre.antt)",
    },
    Words {
        name: "pos1",
        rule: COORDINATE,
        refused: "8, 9",
        value: DIGITS,
        company: "optical: with sys, ctr, pos2 and pos3, all or none, and needed with any of posCov11 to posCov33; radar: foreign",
        definition: DECIMAL,
    },
    Words {
        name: "pos2",
        rule: COORDINATE,
        refused: "8, 9",
        value: DIGITS,
        company: "optical: with sys, ctr, pos1 and pos3, all or none, and needed with any of posCov11 to posCov33; radar: foreign",
        definition: DECIMAL,
    },
    Words {
        name: "pos3",
        rule: COORDINATE,
        refused: "8, 9",
        value: DIGITS,
        company: "optical: with sys, ctr, pos1 and pos2, all or none, and needed with any of posCov11 to posCov33; radar: foreign",
        definition: DECIMAL,
    },
    Words {
        name: "prog",
        rule: "1 or 2 letters, digits, underscores or inner blanks",
        refused: "8, 9",
        value: "none",
        company: "as you like",
        definition: ALPHANUMERIC,
    },
    Words {
        name: "obsTime",
        rule: "yyyy-mm-ddThh:mm:ss, perhaps a point and 1 to 6 digits, then Z; a date from year 0001 on, a time from 00:00:00 to 23:59:59",
        refused: "9; 10 where there is no such date or time",
        value: "the day, 0 on 1858-11-17, and the microseconds of the day",
        company: "needed",
        definition: "`obsTime` (crates/value/specs/Time.antt)",
    },
    Words {
        name: "rmsTime",
        rule: "a decimal above 0: at most 8 bytes, digits and perhaps a point, which may come first or last",
        refused: "8, 9; 10 for zero",
        value: DIGITS,
        company: "optical: as you like; radar: foreign",
        definition: DECIMAL,
    },
    Words {
        name: "ra",
        rule: "degrees from 0 to below 360: up to 3 digits without leading zero, perhaps a point and up to 9 more; at least 1 digit",
        refused: "9; 10 from 360 on",
        value: "in units of 0.000000001 degree",
        company: "optical: needed; radar: foreign",
        definition: "`rightAscension` (crates/value/specs/Angle.antt)",
    },
    Words {
        name: "dec",
        rule: "degrees from -90 to 90: perhaps a sign, up to 2 digits without leading zero, perhaps a point and up to 9 more; at least 1 \
            digit",
        refused: "9; 10 beyond 90",
        value: "in units of 0.000000001 degree",
        company: "optical: needed; radar: foreign",
        definition: "`declination` (crates/value/specs/Angle.antt)",
    },
    Words {
        name: "rmsRA",
        rule: "a decimal above 0: at most 7 bytes, digits and perhaps a point, which may come first or last",
        refused: "8, 9; 10 for zero",
        value: DIGITS,
        company: "optical: needed with rmsCorr; radar: foreign",
        definition: DECIMAL,
    },
    Words {
        name: "rmsDec",
        rule: "a decimal above 0: at most 7 bytes, digits and perhaps a point, which may come first or last",
        refused: "8, 9; 10 for zero",
        value: DIGITS,
        company: "optical: needed with rmsCorr; radar: foreign",
        definition: DECIMAL,
    },
    Words {
        name: "rmsCorr",
        rule: "a decimal from -1 to 1: perhaps a sign, then at most 13 bytes, digits and perhaps a point, which may come first or last",
        refused: "8, 9; 10 beyond 1",
        value: DIGITS,
        company: "optical: needs rmsRA and rmsDec; radar: foreign",
        definition: "`correlation` (crates/value/specs/Decimal.antt)",
    },
    Words {
        name: "astCat",
        rule: "1 to 8 letters, digits, underscores or inner blanks",
        refused: "8, 9",
        value: "none",
        company: "optical: needed; radar: foreign",
        definition: ALPHANUMERIC,
    },
    Words {
        name: "mag",
        rule: "a decimal: perhaps a sign, then at most 6 bytes, digits and perhaps a point, which may come first or last",
        refused: "8, 9",
        value: DIGITS,
        company: "optical: needs band, and is needed with rmsMag, band, photCat and photAp; radar: foreign",
        definition: DECIMAL,
    },
    Words {
        name: "rmsMag",
        rule: "a decimal above 0: at most 6 bytes, digits and perhaps a point, which may come first or last",
        refused: "8, 9; 10 for zero",
        value: DIGITS,
        company: "optical: needs mag and band; radar: foreign",
        definition: DECIMAL,
    },
    Words {
        name: "band",
        rule: "1 to 3 letters, digits, underscores or inner blanks",
        refused: "8, 9",
        value: "none",
        company: "optical: needs mag, and is needed with mag, rmsMag, photCat and photAp; radar: foreign",
        definition: ALPHANUMERIC,
    },
    Words {
        name: "photCat",
        rule: "1 to 8 letters, digits, underscores or inner blanks",
        refused: "8, 9",
        value: "none",
        company: "optical: needs mag and band; radar: foreign",
        definition: ALPHANUMERIC,
    },
    Words {
        name: "photAp",
        rule: "a decimal above 0: at most 6 bytes, digits and perhaps a point, which may come first or last",
        refused: "8, 9; 10 for zero",
        value: DIGITS,
        company: "optical: needs mag and band; radar: foreign",
        definition: DECIMAL,
    },
    Words {
        name: "notes",
        rule: "1 to 6 letters, digits, underscores or inner blanks",
        refused: "8, 9",
        value: "none",
        company: "as you like",
        definition: ALPHANUMERIC,
    },
    Words {
        name: "remarks",
        rule: "at most 300 bytes of any kind",
        refused: "8",
        value: "none",
        company: "as you like",
        definition: "`free` (crates/value/specs/Characters.antt)",
    },
    Words {
        name: "trx",
        rule: "the station that sends: 3 or 4 letters, digits, underscores or inner blanks",
        refused: "8, 9",
        value: "none",
        company: "makes it radar, and is needed there",
        definition: ALPHANUMERIC,
    },
    Words {
        name: "rcv",
        rule: "the station that receives: 3 or 4 letters, digits, underscores or inner blanks",
        refused: "8, 9",
        value: "none",
        company: "makes it radar, and is needed there",
        definition: ALPHANUMERIC,
    },
    Words {
        name: "delay",
        rule: "seconds, a decimal above 0: at most 14 bytes, digits and perhaps a point, which may come first or last",
        refused: "8, 9; 10 for zero",
        value: DIGITS,
        company: "makes it radar, and is needed there, with rmsDelay, where doppler is absent; foreign beside doppler",
        definition: DECIMAL,
    },
    Words {
        name: "rmsDelay",
        rule: "microseconds, a decimal above 0: at most 6 bytes, digits and perhaps a point, which may come first or last",
        refused: "8, 9; 10 for zero",
        value: DIGITS,
        company: "makes it radar, and is needed there, with delay, where doppler is absent; foreign beside doppler",
        definition: DECIMAL,
    },
    Words {
        name: "doppler",
        rule: "Hz, a decimal: perhaps a sign, then at most 14 bytes, digits and perhaps a point, which may come first or last",
        refused: "8, 9",
        value: DIGITS,
        company: "makes it radar, and needs rmsDoppler there; delay and rmsDelay are foreign beside it",
        definition: DECIMAL,
    },
    Words {
        name: "rmsDoppler",
        rule: "Hz, a decimal above 0: at most 6 bytes, digits and perhaps a point, which may come first or last",
        refused: "8, 9; 10 for zero",
        value: DIGITS,
        company: "makes it radar, and is needed there with doppler; foreign without doppler",
        definition: DECIMAL,
    },
    Words {
        name: "frq",
        rule: "MHz, a decimal above 0: at most 14 bytes, digits and perhaps a point, which may come first or last",
        refused: "8, 9; 10 for zero",
        value: DIGITS,
        company: "makes it radar, and is needed there",
        definition: DECIMAL,
    },
    Words {
        name: "com",
        rule: "0 or 1: 1 where the measure is reduced to the centre of mass, 0 where it is not",
        refused: "10",
        value: "none",
        company: "makes it radar, and is needed there",
        definition: "`flag` (crates/value/specs/Word.antt)",
    },
    Words {
        name: "posCov11",
        rule: "the variance of pos1, in the square of its unit, in decimal or exponential form: perhaps a sign, then at most 20 bytes: \
            digits and perhaps a point, which may come first or last, perhaps followed by e or E, a sign or none and 1 to 3 digits",
        refused: "8, 9",
        value: SCALED,
        company: LOCATED,
        definition: COVARIANCE,
    },
    Words {
        name: "posCov12",
        rule: "the covariance of pos1 and pos2, in the product of their units, in decimal or exponential form: perhaps a sign, then at \
            most 20 bytes: digits and perhaps a point, which may come first or last, perhaps followed by e or E, a sign or none and 1 to \
            3 digits",
        refused: "8, 9",
        value: SCALED,
        company: LOCATED,
        definition: COVARIANCE,
    },
    Words {
        name: "posCov13",
        rule: "the covariance of pos1 and pos3, in the product of their units, in decimal or exponential form: perhaps a sign, then at \
            most 20 bytes: digits and perhaps a point, which may come first or last, perhaps followed by e or E, a sign or none and 1 to \
            3 digits",
        refused: "8, 9",
        value: SCALED,
        company: LOCATED,
        definition: COVARIANCE,
    },
    Words {
        name: "posCov22",
        rule: "the variance of pos2, in the square of its unit, in decimal or exponential form: perhaps a sign, then at most 20 bytes: \
            digits and perhaps a point, which may come first or last, perhaps followed by e or E, a sign or none and 1 to 3 digits",
        refused: "8, 9",
        value: SCALED,
        company: LOCATED,
        definition: COVARIANCE,
    },
    Words {
        name: "posCov23",
        rule: "the covariance of pos2 and pos3, in the product of their units, in decimal or exponential form: perhaps a sign, then at \
            most 20 bytes: digits and perhaps a point, which may come first or last, perhaps followed by e or E, a sign or none and 1 to \
            3 digits",
        refused: "8, 9",
        value: SCALED,
        company: LOCATED,
        definition: COVARIANCE,
    },
    Words {
        name: "posCov33",
        rule: "the variance of pos3, in the square of its unit, in decimal or exponential form: perhaps a sign, then at most 20 bytes: \
            digits and perhaps a point, which may come first or last, perhaps followed by e or E, a sign or none and 1 to 3 digits",
        refused: "8, 9",
        value: SCALED,
        company: LOCATED,
        definition: COVARIANCE,
    },
];

impl Named for Words {
    ghost name_of = { λ words. words.name.now };

    fn name(&self) -> &[u8] {
        self.name.as_bytes()
    }
}

// What is said of an element, by its number; nothing where there is none.
fn words_of(element: usize) -> Option<&'static Words> {
    words_at(element.checked_sub(1)?)
}

// What is said of the element of an index, found by its name; nothing where there is none.
fn words_at(index: usize) -> Option<&'static Words>
    ensures { IfSome result (λ words. words.now.name.now ≡ name_of index) }
{
    let mut name = [0u8; LONGEST];
    let length = put_whole(index, &mut name);
    first_named(&WORDS, front(&name, length))
}

// Prints the name of an element, by its number.
pub fn print_name(rt: &impl Print, element: usize) -> io::Result<()> {
    let mut name = [0u8; LONGEST];
    if let Some(index) = element.checked_sub(1) {
        let length = put_whole(index, &mut name);
        print::bytes(rt, front(&name, length))?;
    }
    Ok(())
}

// Prints an element's name and what a value of it may be.
pub fn print_rule(rt: &impl Print, element: usize) -> io::Result<()> {
    print_name(rt, element)?;
    match words_of(element) {
        Some(words) => println!(rt; ": {}", words.rule),
        None => println!(rt; ": "),
    }
}

// Prints all that is said of an element.
pub fn print_all(rt: &impl Print, element: usize) -> io::Result<()> {
    if let Some(words) = words_of(element) {
        println!(rt; "{}", words.rule)?;
        println!(rt; "Refused: {}", words.refused)?;
        println!(rt; "As a number: {}", words.value)?;
        println!(rt; "In an observation: {}", words.company)?;
        println!(rt; "Rule: {}", words.definition)?;
    }
    Ok(())
}

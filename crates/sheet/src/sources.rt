// The sources of a report: reports that were read one after the other as one text.
ghost use Rattle.std.specs.Prelude.{length};
ghost use Rattle.std.specs.Iterator.{at_most};

use comparison::Compared;
use explain::elements::print_name;
use inspect::part;
use std::io;
use text::part::tail;
use words::print;

// The byte between two names.
const PARTING: u8 = 0;

// The sources that are left: their names, parted by bytes 0, their texts one after the other, and how long each text is.
#[derive(Clone, Copy)]
pub struct Sources<'a> {
    pub names: &'a [u8],
    pub texts: &'a [u8],
    pub lengths: &'a [usize],
}

// A source: its name and its text.
#[derive(Clone, Copy)]
pub struct Source<'a> {
    name: &'a [u8],
    text: &'a [u8],
}

impl<'a> Iterator for Sources<'a> {
    type Item = Source<'a>;

    ghost remaining = { λ s. at_most (length s.lengths.now) };

    fn next(&mut self) -> Option<Source<'a>> {
        let (length, lengths) = self.lengths.split_first()?;
        let (text, texts) = self.texts.split_at((*length).min(self.texts.len()));
        let name = part::part(self.names, 0, PARTING);
        *self = Sources {
            names: tail(self.names, part::after(self.names, 0, PARTING)),
            texts,
            lengths,
        };
        Some(Source { name, text })
    }
}

// Prints what comparing the sources with a report came to, in a fixed line: `same N`, or `differ observation N element E`, where E is 0 if
// one of the two ends before that observation.
pub fn print_first(rt: &impl Print, found: Compared) -> io::Result<()> {
    match found {
        Compared::Same(observations) => println!(rt; "same {observations}"),
        Compared::Differ(observation, element) => println!(rt;
            "differ observation {observation} element {}",
            element.unwrap_or(0)
        ),
        _ => println!(rt; "differ observation 0 element 0"),
    }
}

// Prints the sources: the name, the bytes and the observations of each, and by which numbers all the observations together have those.
pub fn print_sources(rt: &impl Print, sources: Sources) -> io::Result<()> {
    let mut before: usize = 0;
    for (index, source) in sources.enumerate() {
        let till = before.saturating_add(observations(source.text));
        print!(rt; "Source {}: ", index + 1)?;
        print::bytes(rt, source.name)?;
        print!(rt; ", {} bytes, ", source.text.len())?;
        print_numbers(rt, before, till)?;
        before = till;
    }
    Ok(())
}

// Prints the observations after one and up to another, by their numbers.
fn print_numbers(rt: &impl Print, before: usize, till: usize) -> io::Result<()> {
    if before < till {
        println!(rt; "observations {} to {till}.", before + 1)
    } else {
        println!(rt; "no observations.")
    }
}

// Prints whether a report of a name holds the observations of its sources, and where it does not the first difference.
pub fn print_answer(
    rt: &impl Print,
    name: &[u8],
    report: &[u8],
    sources: Sources,
    found: Compared,
) -> io::Result<()> {
    print!(rt; "2. Does it hold the observations of its sources, in the same order? ")?;
    match found {
        Compared::Same(observations) => println!(rt; "Yes, all {observations}.")?,
        Compared::Differ(observation, element) => {
            print_whose(rt, sources, observation)?;
            print_values(rt, name, report, sources.texts, observation, element)?;
        }
        _ => println!(rt; "No.")?,
    }
    println!(rt;
        "   Proved of every two texts: they are the same exactly where both are accepted as one list of\n\
         \x20  observations, `same-reads`, `reads-same` (crates/comparison/proofs/Same.antt)."
    )
}

// An observation of a source, by the source's name and its own number.
#[derive(Clone, Copy)]
struct Whose<'a> {
    source: &'a [u8],
    observation: usize,
}

// Prints that an observation is the first that differs, and which one of which source it is.
fn print_whose(rt: &impl Print, sources: Sources, observation: usize) -> io::Result<()> {
    print!(rt; "No.\n   The first that differs is observation {observation}, ")?;
    match whose_is(sources, observation) {
        Some(whose) => {
            print!(rt; "observation {} of ", whose.observation)?;
            print::bytes(rt, whose.source)?;
            println!(rt; ".")
        }
        None => println!(rt; "which no source has."),
    }
}

// Which observation of which source one of all of them is, if a source has it.
fn whose_is(sources: Sources, observation: usize) -> Option<Whose> {
    let mut number = observation;
    for source in sources {
        let count = observations(source.text);
        if number <= count {
            return Some(Whose {
                source: source.name,
                observation: number,
            });
        }
        number -= count;
    }
    None
}

// Prints the values of the element in which an observation differs; none where the sources or the report end before it.
fn print_values(
    rt: &impl Print,
    name: &[u8],
    report: &[u8],
    texts: &[u8],
    observation: usize,
    element: Option<usize>,
) -> io::Result<()> {
    let Some(element) = element else {
        return println!(rt; "   The sources and the report have not as many observations.");
    };
    let there = report::shown(texts, observation, element);
    let here = report::shown(report, observation, element);
    print_value(rt, element, b"the sources", there)?;
    print_value(rt, element, name, here)
}

// Prints the value of an element, and where it is so.
fn print_value(rt: &impl Print, element: usize, place: &[u8], value: &[u8]) -> io::Result<()> {
    print!(rt; "   Its ")?;
    print_name(rt, element)?;
    print!(rt; " in ")?;
    print::bytes(rt, place)?;
    print!(rt; ": ")?;
    print::bytes(rt, value)?;
    print::line_end(rt)
}

// How many observations a text holds; none where it is no report.
fn observations(text: &[u8]) -> usize {
    report::check(text).unwrap_or(0)
}

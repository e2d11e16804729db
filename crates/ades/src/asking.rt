// `ades element` and `ades refusal`: a rule in words.
use crate::error;
use crate::status::Stop;
use element::ELEMENTS;
use explain::{elements, names, refusals};
use words::print;

// Prints the rule of an element, by its name or its number.
pub(crate) fn element(rt: &impl Print, word: &[u8]) -> Result<(), Stop> {
    let Some(number) = number_of(word) else {
        error::tell_about(rt, "no element is called ", word)?;
        names::print_hint(rt, word)?;
        return Err(Stop::Failed);
    };
    print!(rt; "element {number} ")?;
    elements::print_name(rt, number)?;
    print::line_end(rt)?;
    elements::print_all(rt, number)?;
    Ok(())
}

// The number of an element, by its name or its number, if there is one.
fn number_of(word: &[u8]) -> Option<usize> {
    match words::number::read(word) {
        Some(number) => {
            let number = number as usize;
            (1..=ELEMENTS).contains(&number).then_some(number)
        }
        None => element::name::number(word),
    }
}

// Prints the rule of a refusal, by its number.
pub(crate) fn refusal(rt: &impl Print, word: &[u8]) -> Result<(), Stop> {
    let Some(kind) = words::number::read(word).and_then(refusals::of_number) else {
        error::tell_about(rt, "no refusal has the number ", word)?;
        return Err(Stop::Failed);
    };
    println!(rt; "refusal {}", refusal::number(kind))?;
    refusals::print_kind(rt, kind)?;
    Ok(())
}

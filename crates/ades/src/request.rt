// What a command asks for: an element of an observation, as a person names them.
use crate::command::word;
use crate::error;
use crate::status::Stop;
use answers::shown::Asked;
use explain::names::print_hint;

// What the third and the fourth word of a command ask for.
pub(crate) fn asked(rt: &impl Print, command: &[u8]) -> Result<Asked, Stop> {
    let observation = word(command, 2);
    let Some(number) = words::number::read(observation) else {
        error::tell_about(rt, "an observation is a number, not ", observation)?;
        return Err(Stop::Failed);
    };
    let element = element_of(rt, word(command, 3))?;
    Ok(Asked {
        observation: number as usize,
        element,
    })
}

// The number of an element, as a number that may be no element's, or by its name.
fn element_of(rt: &impl Print, word: &[u8]) -> Result<usize, Stop> {
    if let Some(number) = words::number::read(word) {
        return Ok(number as usize);
    }
    if let Some(number) = element::name::number(word) {
        return Ok(number);
    }
    error::tell_about(rt, "no element is called ", word)?;
    print_hint(rt, word)?;
    Err(Stop::Failed)
}

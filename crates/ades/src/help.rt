// What ades can do, in words.
use crate::{commands, error};
use element::ELEMENTS;
use std::io;

// Prints the commands, and what their words mean.
pub(crate) fn obey(rt: &impl Print) -> io::Result<()> {
    commands::print_all(rt)?;
    println!(rt;
        "FILE is a file's name, or - for standard input; so is LIST where it is read. An observation is a number from 1.\n\
         An element is a name, as obsTime, or a number from 1 to {ELEMENTS}.\n\
         The first line of an answer is for scripts. The script ades ends with 0 where a report is accepted or a thing is done,\n\
         with 1 where one is refused or differs, with 2 at an error; of several answers the worst counts."
    )
}

// Tells that there is no command of that name, or that none is given, and prints the commands.
pub(crate) fn unknown(rt: &impl Print, name: &[u8]) -> io::Result<()> {
    if name.is_empty() {
        error::tell(rt, "no command is given")?;
    } else {
        error::tell_about(rt, "no command is called ", name)?;
    }
    obey(rt)
}

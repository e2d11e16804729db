// The commands: one table, from which they are found, their usage is told and the help is printed.
ghost use Rattle.std.specs.Prelude.{◌≡◌, IfSome};

use inspect::table::{Named, first_named};
use std::{fmt, io};

// A command: `run`, or one that a file of commands may hold.
#[derive(Clone, Copy)]
pub(crate) enum Command {
    Run,
    Once(Task),
}

// A command that a file of commands may hold.
#[derive(Clone, Copy)]
pub(crate) enum Task {
    Check,
    Join,
    Audit,
    Element,
    Refusal,
    Help,
    Version,
    About(Question),
}

// What is asked about one report, or about a night list.
#[derive(Clone, Copy)]
pub(crate) enum Question {
    Show,
    Value,
    List,
    Faults,
    Length,
    Pack,
    Night,
    Records,
}

// How a command is used: its name, the command, the fewest and the most words that follow, what they are, and what it answers.
pub(crate) struct Usage {
    name: &'static str,
    pub(crate) command: Command,
    fewest: usize,
    most: usize,
    words: &'static str,
    answers: &'static str,
}

// The commands, in the order of the help.
static COMMANDS: [Usage; 18] = [
    Usage {
        name: "check",
        command: Command::Once(Task::Check),
        fewest: 1,
        most: usize::MAX,
        words: "FILE..",
        answers: "how many observations a report has, or its first fault",
    },
    Usage {
        name: "show",
        command: Command::Once(Task::About(Question::Show)),
        fewest: 3,
        most: 3,
        words: "FILE OBSERVATION ELEMENT",
        answers: "a value's own bytes",
    },
    Usage {
        name: "value",
        command: Command::Once(Task::About(Question::Value)),
        fewest: 3,
        most: 3,
        words: "FILE OBSERVATION ELEMENT",
        answers: "a value as an exact number",
    },
    Usage {
        name: "list",
        command: Command::Once(Task::About(Question::List)),
        fewest: 1,
        most: 1,
        words: "FILE",
        answers: "every value of every observation",
    },
    Usage {
        name: "faults",
        command: Command::Once(Task::About(Question::Faults)),
        fewest: 1,
        most: 1,
        words: "FILE",
        answers: "every fault that can be told, one a line",
    },
    Usage {
        name: "length",
        command: Command::Once(Task::About(Question::Length)),
        fewest: 1,
        most: 1,
        words: "FILE",
        answers: "how long the shortest report of the same observations is, and what it saves",
    },
    Usage {
        name: "pack",
        command: Command::Once(Task::About(Question::Pack)),
        fewest: 2,
        most: 2,
        words: "FILE OUT",
        answers: "the shortest report of the same observations",
    },
    Usage {
        name: "join",
        command: Command::Once(Task::Join),
        fewest: 2,
        most: usize::MAX,
        words: "OUT FILE..",
        answers: "the same of several reports, one after the other",
    },
    Usage {
        name: "night",
        command: Command::Once(Task::About(Question::Night)),
        fewest: 2,
        most: 2,
        words: "FILE LIST",
        answers: "the night list of a report, a record for each observation",
    },
    Usage {
        name: "records",
        command: Command::Once(Task::About(Question::Records)),
        fewest: 1,
        most: 1,
        words: "LIST",
        answers: "the records of a night list, or its first bad one",
    },
    Usage {
        name: "audit",
        command: Command::Once(Task::Audit),
        fewest: 1,
        most: usize::MAX,
        words: "REPORT [FILE..]",
        answers: "the auditor's sheet, and whether the files hold the report's observations",
    },
    Usage {
        name: "element",
        command: Command::Once(Task::Element),
        fewest: 1,
        most: 1,
        words: "ELEMENT",
        answers: "an element's rule",
    },
    Usage {
        name: "refusal",
        command: Command::Once(Task::Refusal),
        fewest: 1,
        most: 1,
        words: "NUMBER",
        answers: "a refusal's rule",
    },
    Usage {
        name: "run",
        command: Command::Run,
        fewest: 1,
        most: 1,
        words: "FILE",
        answers: "the commands of a file, one a line, a blank between words",
    },
    Usage {
        name: "help",
        command: Command::Once(Task::Help),
        fewest: 0,
        most: 0,
        words: "",
        answers: "this text",
    },
    Usage {
        name: "version",
        command: Command::Once(Task::Version),
        fewest: 0,
        most: 0,
        words: "",
        answers: "the program's version and limits",
    },
    Usage {
        name: "--help",
        command: Command::Once(Task::Help),
        fewest: 0,
        most: 0,
        words: "",
        answers: "as help",
    },
    Usage {
        name: "--version",
        command: Command::Once(Task::Version),
        fewest: 0,
        most: 0,
        words: "",
        answers: "as version",
    },
];

// How many bytes a command's name and words have room for in the help, before its answer.
const ROOM: usize = 34;

impl Usage {
    // Whether so many words may follow the command's name.
    pub(crate) fn takes(&self, words: usize) -> bool {
        (self.fewest <= words) & (words <= self.most)
    }
}

impl fmt::Display for Usage {
    fn fmt<W: fmt::Write>(&self, f: &mut fmt::Formatter<W>) -> fmt::Result {
        let name = self.name;
        let words = self.words;
        write!(f, "ades {name} {words}")
    }
}

impl Named for Usage {
    ghost name_of = { λ usage. usage.name.now };

    fn name(&self) -> &[u8] {
        self.name.as_bytes()
    }
}

// How the command of a name is used, if there is one.
pub(crate) fn find(name: &[u8]) -> Option<&'static Usage>
    ensures { IfSome result (λ usage. usage.now.name.now ≡ name.now) }
{
    first_named(&COMMANDS, name)
}

// Prints how every command is used, and what it answers.
pub(crate) fn print_all(rt: &impl Print) -> io::Result<()> {
    for usage in &COMMANDS {
        let blanks = ROOM
            .saturating_sub(usage.name.len())
            .saturating_sub(usage.words.len());
        println!(rt; "{usage}{:blanks$}{}", "", usage.answers)?;
    }
    Ok(())
}

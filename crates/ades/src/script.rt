// Commands obeyed: one, or those of a file, one a line.
use crate::command::word;
use crate::commands::{Command, Question, Task, Usage};
use crate::file::SPACE;
use crate::status::{Status, Stop};
use crate::{
    asking, auditing, checking, command, commands, error, file, help, joining, packing, recording,
    showing, status, valuing, version,
};
use std::io;
use std::rt::Runtime;
use text::part::{front, same};

// Obeys the program's words; after `--status` the script is told how the command went.
pub(crate) fn start(rt: &impl Runtime, command: &[u8]) -> io::Result<()> {
    if same(word(command, 0), b"--status") {
        let status = Status::of(obey(rt, command::rest(command)))?;
        status::tell(rt, status);
    } else {
        Status::of(obey(rt, command))?;
    }
    Ok(())
}

// Obeys a command.
fn obey(rt: &impl Runtime, command: &[u8]) -> Result<(), Stop> {
    let usage = usage_of(rt, word(command, 0))?;
    match usage.command {
        Command::Run => {
            check_use(rt, usage, command)?;
            run(rt, word(command, 1))
        }
        Command::Once(task) => obey_once(rt, usage, task, command),
    }
}

// Obeys the commands of a file.
fn run(rt: &impl Runtime, name: &[u8]) -> Result<(), Stop> {
    let mut space = [0u8; SPACE];
    let length = file::read(rt, name, &mut space)?.len();
    if SPACE <= length {
        error::tell_about(rt, "too long for a file of commands: ", name)?;
        return Err(Stop::Failed);
    }
    command::part_words(&mut space);
    obey_lines(rt, front(&space, length))
}

// Obeys the commands of a text, one a line; empty lines are passed over. The worst outcome counts.
fn obey_lines(rt: &impl Runtime, text: &[u8]) -> Result<(), Stop> {
    let mut worst = Status::Done;
    for line in text.split(|byte| *byte == b'\n') {
        if !line.is_empty() {
            worst = worst.max(Status::of(obey_line(rt, line))?);
        }
    }
    worst.outcome()
}

// Obeys a command of a file, printed before its answer.
fn obey_line(rt: &impl Runtime, command: &[u8]) -> Result<(), Stop> {
    command::echo(rt, command)?;
    let usage = usage_of(rt, word(command, 0))?;
    match usage.command {
        Command::Run => {
            error::tell(rt, "a file of commands cannot run another")?;
            Err(Stop::Failed)
        }
        Command::Once(task) => obey_once(rt, usage, task, command),
    }
}

// How the command of a name is used; fails, and tells so, where there is none.
fn usage_of(rt: &impl Print, name: &[u8]) -> Result<&'static Usage, Stop> {
    match commands::find(name) {
        Some(usage) => Ok(usage),
        None => {
            help::unknown(rt, name)?;
            Err(Stop::Failed)
        }
    }
}

// Fails, and tells the usage, where a command has not as many words as it wants.
fn check_use(rt: &impl Print, usage: &Usage, command: &[u8]) -> Result<(), Stop> {
    if usage.takes(command::arguments(command)) {
        return Ok(());
    }
    error::tell_usage(rt, usage)?;
    Err(Stop::Failed)
}

// Obeys a command that is not `run`, if it has as many words as it wants. Each is handed something else, so a table of functions would be no
// plainer than this match.
fn obey_once(rt: &impl Runtime, usage: &Usage, task: Task, command: &[u8]) -> Result<(), Stop> {
    check_use(rt, usage, command)?;
    match task {
        Task::Check => checking::obey(rt, command),
        Task::Join => joining::obey(rt, command),
        Task::Audit => auditing::obey(rt, command),
        Task::Element => asking::element(rt, word(command, 1)),
        Task::Refusal => asking::refusal(rt, word(command, 1)),
        Task::Help => Ok(help::obey(rt)?),
        Task::Version => Ok(version::obey(rt)?),
        Task::About(question) => obey_about(rt, question, command),
    }
}

// Obeys a command about one report or list, the one that its first argument names. The space is longer than any right list, so that what
// does not fit changes no answer.
fn obey_about(rt: &impl Runtime, question: Question, command: &[u8]) -> Result<(), Stop> {
    let mut space = [0u8; SPACE];
    let text = file::read(rt, word(command, 1), &mut space)?;
    match question {
        Question::Show => showing::obey(rt, command, text),
        Question::Value => valuing::obey(rt, command, text),
        Question::List => checking::list(rt, text),
        Question::Faults => checking::list_faults(rt, text),
        Question::Length => packing::tell_length(rt, text),
        Question::Pack => packing::pack_into(rt, word(command, 2), text),
        Question::Night => recording::obey(rt, command, text),
        Question::Records => recording::tell(rt, text),
    }
}

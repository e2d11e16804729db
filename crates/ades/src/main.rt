// ades: reports of observations checked, shown, valued, listed, measured, packed, joined and audited; night lists written and read.
#![tactic(auto)]

mod asking;
mod auditing;
mod checking;
mod command;
mod commands;
mod error;
mod file;
mod help;
mod joining;
mod packing;
mod recording;
mod request;
mod script;
mod showing;
mod sources;
mod status;
mod valuing;
mod version;

use std::io;

// The room for the words of a command.
const SPACE: usize = 65536;

fn main(rt: HostRuntime) -> io::Result<()> {
    let mut space = [0u8; SPACE];
    match command::gather(&rt, &mut space) {
        Some(command) => script::start(&rt, command),
        None => error::tell(&rt, "the words of the command are too long"),
    }
}

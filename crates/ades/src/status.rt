// How a command went, which the script `ades` ends with.
use std::fs::OpenOptions;
use std::io;
use std::io::Write;
use std::rt::Files;

// How a command went, from the best to the worst: accepted, or done; refused, or found to differ; a wrong command, or a file that cannot be
// read or written.
#[derive(Clone, Copy, PartialEq, Eq, PartialOrd, Ord)]
pub(crate) enum Status {
    Done,
    Refused,
    Failed,
}

// Why a command is not done: it is refused, or it failed, which has been told; or an answer could not be printed.
#[derive(Clone, Copy)]
pub(crate) enum Stop {
    Refused,
    Failed,
    Unprinted(io::Error),
}

// The descriptor on which the script reads how a command went, as a file.
const DESCRIPTOR: &str = "/dev/fd/3";

impl Status {
    // How a command went that came to this.
    pub(crate) fn of(outcome: Result<(), Stop>) -> io::Result<Status> {
        match outcome {
            Ok(()) => Ok(Status::Done),
            Err(Stop::Refused) => Ok(Status::Refused),
            Err(Stop::Failed) => Ok(Status::Failed),
            Err(Stop::Unprinted(error)) => Err(error),
        }
    }

    // What a command came to that went so.
    pub(crate) fn outcome(self) -> Result<(), Stop> {
        match self {
            Status::Done => Ok(()),
            Status::Refused => Err(Stop::Refused),
            Status::Failed => Err(Stop::Failed),
        }
    }
}

impl From<Status> for u8 {
    fn from(status: Status) -> u8 {
        status as u8
    }
}

impl From<io::Error> for Stop {
    fn from(error: io::Error) -> Stop {
        Stop::Unprinted(error)
    }
}

// Tells the script how a command went. Where there is no script that reads it nobody is told.
pub(crate) fn tell(rt: &impl Files, status: Status) {
    let _ = write(rt, status);
}

// Writes how a command went to the descriptor, after what stands there.
fn write(rt: &impl Files, status: Status) -> io::Result<()> {
    let mut descriptor = OpenOptions::new().append(true).open(rt, DESCRIPTOR)?;
    write!(descriptor, "{}", u8::from(status))
}

// `ades join`: the shortest report of the observations of several reports, one after the other.
use crate::command::word;
use crate::file::SPACE;
use crate::packing::pack_into;
use crate::sources;
use crate::status::Stop;
use report::ROW_LIMIT;
use std::rt::Runtime;

// Obeys `join OUT FILE..`.
pub(crate) fn obey(rt: &impl Runtime, command: &[u8]) -> Result<(), Stop> {
    let mut space = [0u8; SPACE];
    let mut lengths = [0usize; ROW_LIMIT];
    let sources = sources::read(rt, command, &mut space, &mut lengths)?;
    pack_into(rt, word(command, 1), sources.texts)
}

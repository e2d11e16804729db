// What a record holds, as numbers; stn with its blank is one too, low byte first.
#[derive(Clone, Copy)]
pub struct Record {
    pub number: u64,
    pub station: u64,
    pub day: i64,
    pub microseconds: u64,
    pub ra: i64,
    pub dec: i64,
}

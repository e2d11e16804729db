// The night list as C sees it. include/kyrrbolda.h calls the structs kyrr_done, kyrr_night_checked and kyrr_night_record.
ghost use Rattle.std.specs.Prelude.{◌≡◌};
ghost use Rattle.report.specs.Report.{read as read_of};
ghost use Rattle.night.specs.List.{written_paper, written_answer, list_after, listed_paper, list_answer, recorded_paper, record_answer};
ghost use Rattle.kyrrbolda.specs.PlainNight.{plain_done, plain_listed, plain_record};

use night::answer::Record;
use refusal::Refusal;

// That what was asked for is done.
#[repr(C)]
#[derive(Clone, Copy, Default)]
pub struct KyrrDone {
    pub refused: u64,
    pub line: u64,
    pub place: u64,
}

// How many records a list has.
#[repr(C)]
#[derive(Clone, Copy, Default)]
pub struct KyrrNightChecked {
    pub refused: u64,
    pub line: u64,
    pub place: u64,
    pub records: u64,
}

// What a record holds.
#[repr(C)]
#[derive(Clone, Copy, Default)]
pub struct KyrrNightRecord {
    pub refused: u64,
    pub line: u64,
    pub place: u64,
    pub number: u64,
    pub station: u64,
    pub day: i64,
    pub microseconds: u64,
    pub ra: i64,
    pub dec: i64,
}

// Writes the record of an observation of a report at its place in the list, or says why nothing is written.
#[unsafe(no_mangle)]
pub extern "C" fn kyrr_night_write(report: &[u8], observation: u64, list: &mut [u8]) -> KyrrDone
    ensures { (result ≡ plain_done (written_answer (read_of report.now) observation list.old)) × (list.new ≡ list_after (read_of report.now) observation list.old) }
{
    KyrrDone::from(night::write(report, observation as usize, list))
}

// How many records a list has, or its first bad one.
#[unsafe(no_mangle)]
pub extern "C" fn kyrr_night_check(list: &[u8]) -> KyrrNightChecked
    ensures { result ≡ plain_listed (list_answer list.now) }
{
    KyrrNightChecked::from(night::check(list))
}

// What a record of a list holds, or why nothing is given.
#[unsafe(no_mangle)]
pub extern "C" fn kyrr_night_read(list: &[u8], number: u64) -> KyrrNightRecord
    ensures { result ≡ plain_record (record_answer list.now number) }
{
    KyrrNightRecord::from(night::read(list, number as usize))
}

// The answer of a writing as a plain struct.
impl From<Result<(), Refusal>> for KyrrDone {
    ghost from_gives = { λ answer plain. plain ≡ plain_done (written_paper answer) };

    fn from(answer: Result<(), Refusal>) -> KyrrDone {
        match answer {
            Ok(()) => KyrrDone::default(),
            Err(refusal) => KyrrDone {
                refused: refusal::number(refusal.kind),
                line: refusal.line as u64,
                place: refusal.place as u64,
            },
        }
    }
}

// The answer of a list's check as a plain struct.
impl From<Result<usize, Refusal>> for KyrrNightChecked {
    ghost from_gives = { λ answer plain. plain ≡ plain_listed (listed_paper answer) };

    fn from(answer: Result<usize, Refusal>) -> KyrrNightChecked {
        match answer {
            Ok(records) => KyrrNightChecked {
                records: records as u64,
                ..KyrrNightChecked::default()
            },
            Err(refusal) => KyrrNightChecked {
                refused: refusal::number(refusal.kind),
                line: refusal.line as u64,
                place: refusal.place as u64,
                ..KyrrNightChecked::default()
            },
        }
    }
}

// The answer to a reading as a plain struct.
impl From<Result<Record, Refusal>> for KyrrNightRecord {
    ghost from_gives = { λ answer plain. plain ≡ plain_record (recorded_paper answer) };

    fn from(answer: Result<Record, Refusal>) -> KyrrNightRecord {
        match answer {
            Ok(fields) => KyrrNightRecord {
                number: fields.number,
                station: fields.station,
                day: fields.day,
                microseconds: fields.microseconds,
                ra: fields.ra,
                dec: fields.dec,
                ..KyrrNightRecord::default()
            },
            Err(refusal) => KyrrNightRecord {
                refused: refusal::number(refusal.kind),
                line: refusal.line as u64,
                place: refusal.place as u64,
                ..KyrrNightRecord::default()
            },
        }
    }
}

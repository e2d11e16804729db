// The table of elements: their names, their forms, and the order of their columns.
ghost use Rattle.std.specs.Prelude.{◌≡◌};
ghost use Rattle.element.specs.Table.{form_of};

use crate::ELEMENTS;
use crate::form::Form;

// The names of all elements, one after the other. They and their starts are static: a constant that is indexed is laid out at each call.
pub(crate) static NAMES: [u8; 237] =
    *b"permIDprovIDartSattrkSubobsIDobsSubIDmodestnsysctrpos1pos2pos3progobsTimermsTimeradecrmsRArmsDecrmsCorrastCatmagrmsMagbandphotCatphotApnotesremarkstrxrcvdelayrmsDelaydopplerrmsDopplerfrqcomposCov11posCov12posCov13posCov22posCov23posCov33";

// The bytes of the longest name.
pub const LONGEST: usize = 10;

// Where each name starts among all of them, and where the last one ends.
pub(crate) static STARTS: [u8; ELEMENTS + 1] = [
    0, 6, 12, 18, 24, 29, 37, 41, 44, 47, 50, 54, 58, 62, 66, 73, 80, 82, 85, 90, 96, 103, 109,
    112, 118, 122, 129, 135, 140, 147, 150, 153, 158, 166, 173, 183, 186, 189, 197, 205, 213, 221,
    229, 237,
];

// The elements by index, in the order in which columns are written: element order, but posCov11 to posCov33 follow pos3.
pub const COLUMN_ORDER: [u8; ELEMENTS] = [
    0, 1, 2, 3, 4, 5, 6, 7, 8, 9, 10, 11, 12, 37, 38, 39, 40, 41, 42, 13, 14, 15, 16, 17, 18, 19,
    20, 21, 22, 23, 24, 25, 26, 27, 28, 29, 30, 31, 32, 33, 34, 35, 36,
];

// The form of the element of an index.
pub(crate) fn form_of(index: usize) -> Form
    ensures { result ≡ form_of index }
{
    match index {
        0 => Form::PermID,
        1 => Form::ProvID,
        2 => Form::ArtSat,
        3 => Form::Alphanumeric(1, 8),
        4 => Form::Alphanumeric(1, 25),
        5 => Form::Free(25),
        6 => Form::Mode,
        7 => Form::Alphanumeric(3, 4),
        8 => Form::System,
        9 => Form::Centre,
        10 => Form::Decimal(13, true),
        11 => Form::Decimal(13, true),
        12 => Form::Decimal(13, true),
        13 => Form::Alphanumeric(1, 2),
        14 => Form::Time,
        15 => Form::Decimal(8, false),
        16 => Form::RightAscension,
        17 => Form::Declination,
        18 => Form::Decimal(7, false),
        19 => Form::Decimal(7, false),
        20 => Form::Correlation,
        21 => Form::Alphanumeric(1, 8),
        22 => Form::Decimal(6, true),
        23 => Form::Decimal(6, false),
        24 => Form::Alphanumeric(1, 3),
        25 => Form::Alphanumeric(1, 8),
        26 => Form::Decimal(6, false),
        27 => Form::Alphanumeric(1, 6),
        28 => Form::Free(300),
        29 => Form::Alphanumeric(3, 4),
        30 => Form::Alphanumeric(3, 4),
        31 => Form::Decimal(14, false),
        32 => Form::Decimal(6, false),
        33 => Form::Decimal(14, true),
        34 => Form::Decimal(6, false),
        35 => Form::Decimal(14, false),
        36 => Form::Flag,
        37 => Form::Covariance,
        38 => Form::Covariance,
        39 => Form::Covariance,
        40 => Form::Covariance,
        41 => Form::Covariance,
        42 => Form::Covariance,
        _ => Form::Unknown,
    }
}

// The marks of the rows, which the search cuts apart: a block holds one kind.
ghost use Rattle.std.specs.Prelude.{◌≡◌, map, length};
ghost use Rattle.pack.specs.Inner.{mark_in, RowsCut};

use cuts::Plan;
use element::observation::is_radar;
use report::index::{Row, fill_sizes};

// Cuts rows, with lists lent for the mark, the set and the size of each.
pub(crate) fn cut_marked(
    rows: &[Row],
    marks: &mut [u8],
    sets: &mut [u64],
    sizes: &mut [u32],
    cuts: &mut [u16],
) -> Plan
    requires { (length marks.old ≡ length rows.now) × (length sets.old ≡ length rows.now) × (length sizes.old ≡ length rows.now) }
    ensures { RowsCut rows.now cuts.old cuts.new result }
{
    fill_marks(rows, marks);
    fill_sets(rows, sets);
    fill_sizes(rows, sizes);
    cuts::shortest(marks, sets, sizes, cuts)
}

// Writes the mark of each row: 1 of a radar observation, 0 of an optical one.
fn fill_marks(rows: &[Row], marks: &mut [u8])
    requires { length marks.old ≡ length rows.now }
    ensures { marks.new ≡ map (λ row. mark_in row.present) rows.now }
{
    for (i, mark) in marks.iter_mut().enumerate() {
        *mark = u8::from(is_radar(rows[i].present));
    }
}

// Writes the set of each row.
fn fill_sets(rows: &[Row], sets: &mut [u64])
    requires { length sets.old ≡ length rows.now }
    ensures { sets.new ≡ map (λ row. row.present) rows.now }
{
    for (i, set) in sets.iter_mut().enumerate() {
        *set = rows[i].present;
    }
}

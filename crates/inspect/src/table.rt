// Tables: entries in a list, found by their names; and a table written as a text: rows between LFs, in a row entries between bars.
ghost use Rattle.std.specs.Prelude.{ℕ, List, ◌≡◌, find, IfSome};
ghost use Rattle.std.specs.Option.{option_copied};
ghost use Rattle.text.specs.Part.{same};
ghost use Rattle.inspect.specs.Tables.{entry_of, found_row};

use crate::part;
use text::part::same;

// The entry of a row in a column, both counted from 0; empty where there is none.
#[tactic(auto, unfolding(crate::specs::Tables::entry_of))]
pub fn entry(table: &[u8], row: usize, column: usize) -> &[u8]
    ensures { result.now ≡ entry_of table.now row column }
{
    part::numbered(part::numbered(table, row, b'\n'), column, b'|')
}

// The row of a name, counted from 0: the first whose first entry it is.
#[tactic(auto, unfolding(crate::specs::Tables::row_from, crate::specs::Tables::row_of))]
pub fn row(table: &[u8], name: &[u8]) -> Option<usize>
    ensures { result ≡ found_row table.now name.now }
{
    for row in 0..part::count(table, b'\n') {
        if same(entry(table, row, 0), name) {
            return Some(row);
        }
    }
    None
}

// What has a name, by which it is found in a table.
pub trait Named {
    ghost name_of: { Self → List ℕ };

    // The name.
    fn name(&self) -> &[u8]
        ensures { result.now ≡ name_of self.now };
}

// The first entry of a table that has a name; none where no entry has it.
pub fn first_named<'a, T: Named>(table: &'a [T], name: &[u8]) -> Option<&'a T>
    ensures first { option_copied result ≡ find (λ entry. same (T.name_of entry) name.now) table.now }
    ensures has { IfSome result (λ entry. T.name_of entry.now ≡ name.now) }
{
    found(table, name)
}

// The same; that what is found has the name follows from it.
fn found<'a, T: Named>(table: &'a [T], name: &[u8]) -> Option<&'a T>
    ensures { option_copied result ≡ find (λ entry. same (T.name_of entry) name.now) table.now }
{
    table.iter().find(|entry| same(entry.name(), name))
}

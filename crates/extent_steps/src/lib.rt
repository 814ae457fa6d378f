// How far rows reach: first_row, last_row, first_column and last_column are the least and the greatest with a cell, None where there is none; empty says that
// there is none, and columns has the columns with a cell. What these are: specs/ of the crate extents.
#![tactic(auto)]

ghost use Rattle.std.specs.Prelude.{◌≡◌, true, false};
ghost use Rattle.rows.specs.Cells.{At};
ghost use Rattle.extents.specs.Extents.{NoCell, SomeCell, Columns, FirstOf, LastOf, row, column};

// The least row of a with a cell.
pub fn first_row(a: [u16; 16]) -> Option<usize>
    ensures { FirstOf row (At a) result }
{
    a.iter().position(|row| *row != 0)
}

// The greatest row of a with a cell.
pub fn last_row(a: [u16; 16]) -> Option<usize>
    ensures { LastOf row (At a) result }
{
    a.iter().rposition(|row| *row != 0)
}

// The columns in which a has a cell: bit x for column x.
pub fn columns(a: [u16; 16]) -> u16
    ensures { Columns a 16 result }
{
    a.iter().fold(0, |r, row| r | *row)
}

// The least column of a with a cell.
pub fn first_column(a: [u16; 16]) -> Option<u32>
    ensures { FirstOf column (At a) result }
{
    let c = columns(a);
    for first in 0..16 {
        if rows::has(c, first) {
            return Some(first);
        }
    }
    None
}

// The greatest column of a with a cell.
pub fn last_column(a: [u16; 16]) -> Option<u32>
    ensures { LastOf column (At a) result }
{
    let c = columns(a);
    for last in (0..16).rev() {
        if rows::has(c, last) {
            return Some(last);
        }
    }
    None
}

// Whether a has no cell.
pub fn empty(a: [u16; 16]) -> bool
    ensures yes { result ≡ true → NoCell (At a) }
    ensures no { result ≡ false → SomeCell (At a) }
{
    first_row(a).is_none()
}

// Masks of the 3×3 square: normal_position. What a mask, a stage, a chain and a plan are is in specs/.
#![tactic(auto)]

ghost use Rattle.std.specs.Prelude.{◌≡◌, ◌*◌, ◌/◌, ◌%◌, ◌^◌, ◌<◌};
ghost use Rattle.masks.specs.Mask.{has_column, column_shift, row_shift, NormalPosition};

// The mask shifted down by rows, of three bits each, until row 0 has a cell; 0 for 0.
// The loops of by_rows and by_columns count no index: they shift until a row, or a column, has a cell.
fn by_rows(mask: u16) -> u16
    requires { mask < 512 }
    ensures { (result ≡ mask / 2 ^ (3 * row_shift mask)) × (result < 512) }
{
    let mut m = mask;
    while m % 8 == 0 {
        if m == 0 {
            return 0;
        }
        m >>= 3;
    }
    m
}

// Whether column 0 has a cell, in one of the three rows.
fn in_column_0(m: u16) -> bool
    requires { m < 512 }
    ensures { result ≡ has_column 0 m }
{
    m % 2 == 1 || (m >> 3) % 2 == 1 || (m >> 6) % 2 == 1
}

// The mask shifted by columns, a bit each, until column 0 has a cell; 0 for 0.
fn by_columns(mask: u16) -> u16
    requires { mask < 512 }
    ensures { result ≡ mask / 2 ^ column_shift mask }
{
    let mut n = mask;
    while !in_column_0(n) {
        if n == 0 {
            return 0;
        }
        n >>= 1;
    }
    n
}

// The normal position of a mask: shifted by rows, and then by columns; 0 for 0. Bits above the ninth are not read.
pub fn normal_position(mask: u16) -> u16
    ensures { NormalPosition (mask % 512) result }
{
    by_columns(by_rows(mask % 512))
}

// Rows of cells, [u16; 16], made and compared: same tests rows; mask_rows makes those of a mask, and lowered moves rows back by a distance.
// What rows stand for, and what each answers: specs/ of the crate rows. Sums of rows are in the crate row_sum_steps; ⊕ and ⊖ by a mask are in mask_steps.
#![tactic(auto)]

ghost use Rattle.std.specs.Prelude.{◌≡◌, true, false, ◌<◌, ◌%◌};
ghost use Rattle.rows.specs.Cells.{Same, At, AtMask};
ghost use Rattle.rows.specs.Leaves.{Under, Lowered};

// z without the cells that (i, j) does not move into t.
fn under(z: [u16; 16], t: [u16; 16], i: u32, j: usize) -> [u16; 16]
    requires { (i < 16) × (j < 16) }
    ensures { Under z t i j result }
{
    let mut r = z;
    for y in 0..16 {
        r[y] = if y + j < 16 {
            r[y] & (t[y + j] >> i)
        } else {
            0
        };
    }
    r
}

// Whether a and b have the same cells.
pub fn same(a: [u16; 16], b: [u16; 16]) -> bool
    ensures yes { result ≡ true → Same (At a) (At b) }
    ensures no { result ≡ false → Same (At a) (At b) → ⊥ }
{
    let mut all = true;
    for i in 0..16 {
        all &= a[i] == b[i];
    }
    all
}

// The rows of a 3×3 mask.
pub fn mask_rows(m: u16) -> [u16; 16]
    ensures { Same (At result) (AtMask (m % 512)) }
{
    let mut r = [0u16; 16];
    r[0] = m % 8;
    r[1] = m / 8 % 8;
    r[2] = m / 64 % 8;
    r
}

// The cells of a, moved by (−i, −j); those that would leave the window are dropped.
pub fn lowered(a: [u16; 16], i: u32, j: usize) -> [u16; 16]
    ensures { Same (At result) (Lowered (At a) i j) }
{
    if i < 16 && j < 16 {
        under([65535u16; 16], a, i, j)
    } else {
        [0u16; 16]
    }
}

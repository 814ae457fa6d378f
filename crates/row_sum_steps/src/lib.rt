// Rows of cells, [u16; 16], put onto one another: sum_of is ⊕ cut to the window; joined has the cells of both, and raised moves rows by a distance.
// What rows stand for, and what each answers: specs/ of the crate rows. An array that is lent takes a call's result through `next`: the checker does not
// cover `r = onto(r, ..)`. Rows are compared, and moved back, by the crate row_steps.
#![tactic(auto)]

ghost use Rattle.std.specs.Prelude.{◌<◌};
ghost use Rattle.rows.specs.Cells.{Same, At};
ghost use Rattle.rows.specs.Leaves.{Onto, SumOf, RowSum, Either, Raised};

// z with a, moved by (i, j), put onto it, cut to the window.
fn onto(z: [u16; 16], a: [u16; 16], i: u32, j: usize) -> [u16; 16]
    requires { (i < 16) × (j < 16) }
    ensures { Onto z a i j result }
{
    let mut r = z;
    for y in j..16 {
        r[y] |= a[y - j] << i;
    }
    r
}

// z with the sum of a and the row b, at row j, put onto it; where no bit is left the rest is passed over.
fn row_sum(z: [u16; 16], a: [u16; 16], b: u16, j: usize) -> [u16; 16]
    requires { j < 16 }
    ensures { RowSum z a b j 16 result }
{
    let mut r = z;
    for i in 0..16 {
        if b >> i == 0 {
            return r;
        }
        if rows::has(b, i) {
            let next = onto(r, a, i, j);
            r = next;
        }
    }
    r
}

// The part of a ⊕ b that lies in the window.
pub fn sum_of(a: [u16; 16], b: [u16; 16]) -> [u16; 16]
    ensures { SumOf a b result }
{
    let mut r = [0u16; 16];
    for (j, row) in b.iter().enumerate() {
        if *row != 0 {
            let next = row_sum(r, a, *row, j);
            r = next;
        }
    }
    r
}

// The cells of a and of b.
pub fn joined(a: [u16; 16], b: [u16; 16]) -> [u16; 16]
    ensures { Same (At result) (Either (At a) (At b)) }
{
    onto(a, b, 0, 0)
}

// The cells of a, moved by (i, j); those that would leave the window are dropped.
pub fn raised(a: [u16; 16], i: u32, j: usize) -> [u16; 16]
    ensures { Raised (At a) i j (At result) }
{
    if i < 16 && j < 16 {
        onto([0u16; 16], a, i, j)
    } else {
        [0u16; 16]
    }
}

// Sums and residues of rows by a 3×3 mask: grown and shrunk. Each row is moved by the mask's nine cells alike, and what a cell of the mask moves is kept by a
// word of ones where the mask has the cell: no test stands in the loop over the rows. What rows and masks stand for: specs/ of the crate rows.
// The two and their steps stay apart: one function over both would take `|` or `&`, the direction of the move and what stands for no cell with it.
#![tactic(auto)]

ghost use Rattle.std.specs.Prelude.{◌≡◌, ℕ, ◌+◌, ◌*◌, ◌≤◌, ◌<◌, get_or};
ghost use Rattle.rows.specs.Cells.{Sum, Residue, At, AtMask, bit, CutTo};
ghost use Rattle.rows.specs.Leaves.{moved_of, strip, held_of, hold};

// Ones where b is 1, and 0 where it is 0.
fn span(b: u16) -> u16
    requires { b ≤ 1 }
    ensures { result ≡ b * 65535 }
{
    b * 0xffff
}

// A row moved by i columns where the mask has bit c, and 0 where it has not.
fn moved(a: u16, m: u16, i: u32, c: u32) -> u16
    requires { (i < 16) × (c < 16) }
    ensures { result ≡ moved_of a m i c }
{
    (a << i) & span((m >> c) % 2)
}

// The sum of a row and the three bits of the mask from s on.
fn strip_sum(a: u16, m: u16, s: u32) -> u16
    requires { s < 10 }
    ensures { result ≡ strip a m s }
{
    moved(a, m, 0, s) | moved(a, m, 1, s + 1) | moved(a, m, 2, s + 2)
}

// Two rows without a cell, and then those of a.
fn led(a: [u16; 16]) -> [u16; 18]
    ensures { (get_or result 0 0 ≡ 0) × ((get_or result 1 0 ≡ 0) × ((q : ℕ) → get_or result (q + 2) 0 ≡ get_or a q 0)) }
{
    let mut r = [0u16; 18];
    for y in 0..16 {
        r[y + 2] = a[y];
    }
    r
}

// The part of a ⊕ m that lies in the window.
pub fn grown(a: [u16; 16], m: u16) -> [u16; 16]
    ensures { CutTo (Sum (At a) (AtMask m)) result }
{
    let u = led(a);
    let mut r = [0u16; 16];
    for y in 0..16 {
        r[y] = strip_sum(u[y + 2], m, 0) | strip_sum(u[y + 1], m, 3) | strip_sum(u[y], m, 6);
    }
    r
}

// A row moved back by i columns where the mask has bit c, and ones where it has not.
fn held(t: u16, m: u16, i: u32, c: u32) -> u16
    requires { (i < 16) × (c < 16) }
    ensures { result ≡ held_of t m i c }
{
    (t >> i) | span(1 - (m >> c) % 2)
}

// What the three bits of the mask from s on leave of a row.
fn strip_residue(t: u16, m: u16, s: u32) -> u16
    requires { s < 10 }
    ensures { result ≡ hold t m s }
{
    held(t, m, 0, s) & held(t, m, 1, s + 1) & held(t, m, 2, s + 2)
}

// The rows of t, and then two without a cell.
fn trailed(t: [u16; 16]) -> [u16; 18]
    ensures { (q : ℕ) → get_or result q 0 ≡ get_or t q 0 }
{
    let mut r = [0u16; 18];
    for y in 0..16 {
        r[y] = t[y];
    }
    r
}

// The part of t ⊖ m that lies in the window.
pub fn shrunk(t: [u16; 16], m: u16) -> [u16; 16]
    ensures { CutTo (Residue (At t) (AtMask m)) result }
{
    let u = trailed(t);
    let mut r = [0u16; 16];
    for y in 0..16 {
        r[y] = strip_residue(u[y], m, 0)
            & strip_residue(u[y + 1], m, 3)
            & strip_residue(u[y + 2], m, 6);
    }
    r
}

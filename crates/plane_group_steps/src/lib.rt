// One level of rows of cells put into a row of bytes, a row to a bit: group, up to eight rows, and top, one row into the highest bit.
#![tactic(auto)]

ghost use Rattle.std.specs.Prelude.{◌≡◌, ℕ, ◌*◌, ◌<◌, ◌≤◌, length, get_or};
ghost use Rattle.rows.specs.Cells.{bit};
ghost use Rattle.planes.specs.Bytes.{Bitted};
ghost use Rattle.plane_group_steps.specs.Groups.{laid_bit, group_bit, group_fits, RowsGrouped, RowTopped};

// A level of the cell c put into bit j of a, which was 0.
fn laid(a: u8, c: u8, j: usize, some: bool) -> u8
    requires { j < 8 }
    ensures { (q : ℕ) → q < 8 → bit result q ≡ laid_bit some a c j q }
{
    a | (planes::level_bit(c, some) << j)
}

// A row of cells put into bit j of the bytes of d.
fn lay(d: &mut [u8], s: &[u8], j: usize, some: bool)
    requires { (length d.old ≤ length s.now) × (j < 8) }
    ensures { Bitted 0 (length d.old) (λ k q. laid_bit some (get_or d.old k 0) (get_or s.now k 0) j q)
        d.old d.new }
{
    for k in 0..d.len() {
        d[k] = laid(d[k], s[k], j, some);
    }
}

// Fewer than eight rows, one by one, with the bits of outside above them. The first goes first: a loop that went down the rows would not be done many bytes
// at a time.
fn few(d: &mut [u8], s: &[u8], w: usize, r: usize, outside: u8, some: bool)
    requires { (length d.old ≤ w) × (r < 8) × (r * w ≤ length s.now) }
    ensures { Bitted 0 (length d.old) (group_bit some s.now w r outside) d.old d.new }
{
    ranges::fill(d, outside << r);
    for j in 0..r {
        lay(d, &s[j * w..j * w + w], j, some);
    }
}

// Up to eight rows: in one pass where there are eight.
fn grouped(d: &mut [u8], s: &[u8], w: usize, r: usize, outside: u8, some: bool)
    requires { (length d.old ≤ w) × (r ≤ 8) × (w ≤ 65535) × (r * w ≤ length s.now) }
    ensures { Bitted 0 (length d.old) (group_bit some s.now w r outside) d.old d.new }
{
    if r == 8 {
        plane_eight_steps::eight_rows(d, s, w, some);
    } else {
        few(d, s, w, r, outside, some);
    }
}

// Whether r rows of w cells, which are among m, go into n bytes.
fn group_fits(n: usize, m: usize, w: usize, r: usize) -> bool
    ensures { result ≡ group_fits n m w r }
{
    n <= w && r <= 8 && w <= 65535 && r * w <= m
}

// The first r rows of s, w cells a row, put into the bytes of d, with the bits of outside above them. False, with nothing written, where d is longer than a
// row, there are more than eight rows, or s does not have them.
pub fn group(d: &mut [u8], s: &[u8], w: usize, r: usize, outside: u8, some: bool) -> bool
    ensures { RowsGrouped some w r outside s.now d.old result d.new }
{
    if !group_fits(d.len(), s.len(), w, r) {
        return false;
    }
    grouped(d, s, w, r, outside, some);
    true
}

// A row of cells s put into bit 7 of the bytes of d, with the value outside in the bits below it. False, with nothing written, where d is longer than the row,
// or the value outside is neither 0 nor 1.
pub fn top(d: &mut [u8], s: &[u8], outside: u8, some: bool) -> bool
    ensures { RowTopped some outside s.now d.old result d.new }
{
    if s.len() < d.len() || 1 < outside {
        return false;
    }
    ranges::fill(d, outside * 127);
    lay(d, s, 7, some);
    true
}

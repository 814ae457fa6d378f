// A mask's three rows, each a pass over the bytes of a plane that begin at its first cell: rows.
#![tactic(auto)]

mod columns;

ghost use Rattle.std.specs.Prelude.{◌≡◌, ◌+◌, ◌*◌, ◌≤◌, length};
ghost use Rattle.planes.specs.Bytes.{Bitted};
ghost use Rattle.plane_pass_steps.specs.Passes.{mask_row_of};
ghost use Rattle.plane_row_steps.specs.MaskRows.{seed_byte, first_bit, next_bit, Rowed, rows_fit, MaskRead};

use planes::Stage;

// What a byte begins with, before a row of the mask is read: ones for erosion, zeros for dilation.
fn seed(erode: bool) -> u8
    ensures { result ≡ seed_byte erode }
{
    if erode { 255 } else { 0 }
}

// A mask's row 0: each byte of d is the pick of bytes of s, from o on.
fn first_row(d: &mut [u8], s: &[u8], o: usize, mask: u16, erode: bool)
    requires { length d.old + (o + 2) ≤ length s.now }
    ensures { Bitted 0 (length d.old) (first_bit erode s.now o mask) d.old d.new }
{
    if let Some(f) = columns::first(mask, 0) {
        plane_pass_steps::level(d, s, columns::reads(mask, 0, o, f, erode), erode);
    } else {
        ranges::fill(d, seed(erode));
    }
}

// A mask's row 2, or 1, joined to what stands in d: bytes of s from o on, and those c after them. Inlined, so that the row and the kind are constants of
// the pass.
#[inline(always)]
fn next_row(d: &mut [u8], s: &[u8], o: usize, c: usize, mask: u16, second: bool, erode: bool)
    requires { length d.old + (o + 2 + c) ≤ length s.now }
    ensures { Bitted 0 (length d.old) (next_bit erode d.old s.now o c mask (mask_row_of second))
        d.old d.new }
{
    let b = if second { 6 } else { 3 };
    if let Some(f) = columns::first(mask, b) {
        plane_pass_steps::join(d, s, c, columns::reads(mask, b, o, f, erode), second, erode);
    }
}

// All three rows, on the bytes d of a plane that begin at its first cell; s bytes a row. The kind goes down as a literal, so that each has loops of its own.
fn all(d: &mut [u8], src: &[u8], s: usize, stage: Stage)
    requires { (s ≤ 65537) × (length d.old + (2 * s + 4) ≤ length src.now) }
    ensures { Rowed stage.erode s stage.mask src.now d.old d.new }
{
    let mask = stage.mask;
    if stage.erode {
        first_row(d, src, s + 2, mask, true);
        next_row(d, src, s + 2, s, mask, false, true);
        next_row(d, src, s + 2, s, mask, true, true);
    } else {
        first_row(d, src, s, mask, false);
        next_row(d, src, 0, s, mask, false, false);
        next_row(d, src, 0, s, mask, true, false);
    }
}

// Whether a row and two bytes more are there on either side of n bytes of a plane in m bytes, s of them a row.
fn rows_fit(n: usize, m: usize, s: usize) -> bool
    ensures { result ≡ rows_fit n m s }
{
    s <= 65537 && 2 * s + 4 <= m && n <= m - (2 * s + 4)
}

// The cells of the stage, in the bytes d that begin at the first cell of the plane in src, s bytes a row. False, with nothing written, where a cell that is
// read is not there.
pub fn rows(d: &mut [u8], src: &[u8], s: usize, stage: Stage) -> bool
    ensures { MaskRead stage.erode s stage.mask src.now d.old result d.new }
{
    if !rows_fit(d.len(), src.len(), s) {
        return false;
    }
    all(d, src, s, stage);
    true
}

// Bytes of eight cells, one above the other: bit q is the cell of row q.
ghost use Rattle.std.specs.Prelude.{◌≡◌, ℕ, ◌<◌};
ghost use Rattle.rows.specs.Cells.{bit};
ghost use Rattle.planes.specs.Bits.{bit_pick};
ghost use Rattle.plane_pass_steps.specs.Passes.{of_three, spanned};

// The lesser of each pair of bits for erosion, the greater for dilation.
pub(crate) fn both(a: u8, b: u8, erode: bool) -> u8
    ensures { (q : ℕ) → bit result q ≡ bit_pick erode (bit a q) (bit b q) }
{
    if erode { a & b } else { a | b }
}

// The same of three bytes.
pub(crate) fn three(a: u8, b: u8, c: u8, erode: bool) -> u8
    ensures { (q : ℕ) → bit result q ≡ of_three erode (bit a q) (bit b q) (bit c q) }
{
    both(both(a, b, erode), c, erode)
}

// The eight cells that stand t below those of a, in a column where b stands under a.
pub(crate) fn raised(a: u8, b: u8, t: u32) -> u8
    requires { (0 < t) × (t < 8) }
    ensures { (q : ℕ) → q < 8 → bit result q ≡ spanned a b t q }
{
    (a << t) | (b >> (8 - t))
}

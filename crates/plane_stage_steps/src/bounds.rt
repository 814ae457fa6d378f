// Bytes and cells of a plane that are no cell of the picture.
ghost use Rattle.std.specs.Prelude.{◌≡◌, cond, ℕ, ◌+◌, ◌*◌, ◌<◌, ◌≤◌, ltb, length};
ghost use Rattle.rows.specs.Cells.{bit};
ghost use Rattle.planes.specs.Bytes.{Bitted};
ghost use Rattle.plane_stage_steps.specs.Bounds.{trimmed_bit, Padded, Bounded};

// The lower r cells of a, and above them those of outside.
fn trimmed(a: u8, r: u32, outside: u8) -> u8
    requires { (0 < r) × (r < 8) }
    ensures { (q : ℕ) → q < 8 → bit result q ≡ cond (ltb q r) (bit a q) (bit outside q) }
{
    (a & (255 >> (8 - r))) | (outside & (255 << r))
}

// The lower r cells of each byte of d are kept, and the others become those of outside.
fn trim(d: &mut [u8], r: u32, outside: u8)
    requires { (0 < r) × (r < 8) }
    ensures { Bitted 0 (length d.old) (trimmed_bit r outside d.old) d.old d.new }
{
    for a in d.iter_mut() {
        *a = trimmed(*a, r, outside);
    }
}

// The first two bytes of the rows 1 to n become outside, s bytes a row.
fn pads(d: &mut [u8], s: usize, n: usize, outside: u8)
    requires { (2 ≤ s) × (n * s + 2 ≤ length d.old) }
    ensures { Padded s n outside d.old d.new }
{
    for r in 0..n {
        let p = (r + 1) * s;
        d[p] = outside;
        d[p + 1] = outside;
    }
}

// What is no cell of the picture becomes outside: the rows of bytes above and below, the pads, and of the last row all but the r lowest cells of a byte.
pub(crate) fn bound(d: &mut [u8], s: usize, n: usize, r: u32, outside: u8)
    requires { (2 ≤ s) × (0 < n) × (0 < r) × (r ≤ 8) × ((n + 2) * s + 2 ≤ length d.old) }
    ensures { Bounded s n r outside d.old d.new }
{
    let e = n * s;
    ranges::fill(&mut d[0..s + 2], outside);
    ranges::fill(&mut d[e + s..e + 2 * s + 2], outside);
    pads(d, s, n, outside);
    if r < 8 {
        trim(&mut d[e + 2..e + s], r, outside);
    }
}

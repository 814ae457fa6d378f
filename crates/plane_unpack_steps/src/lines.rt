// The rows of a cut, each of which is at most three runs: cells left of the plane's, cells of it, and cells right of it.
ghost use Rattle.std.specs.Prelude.{◌≡◌, ◌+◌, ◌*◌, ◌^◌, ◌<◌, ◌≤◌, length, get_or};
ghost use Rattle.rows.specs.Cells.{bit};
ghost use Rattle.ranges.specs.Ranges.{over_front, Ranged};
ghost use Rattle.cuts.specs.Cuts.{cut_out, shifted, seen};
ghost use Rattle.planes.specs.Bits.{of_levels};
ghost use Rattle.planes.specs.Planes.{plane_size, plane_cells};
ghost use Rattle.plane_unpack_steps.specs.Pairs.{pair_bit, Rows};

use cuts::{Part, Sides};

// The byte of which bit j alone is set. Not as `1 << j`: the compiler would make of it, in the loops, a shift by j of each byte, which takes a sixth longer.
fn mask(j: u32) -> u8
    requires { j < 8 }
    ensures { result ≡ 2 ^ j }
{
    128 >> (7 - j)
}

// Bit j of a byte, by the byte m of which it alone is set: a shift by j would take longer where many bytes are done at a time.
fn held(c: u8, j: u32, m: u8) -> u8
    requires { m ≡ 2 ^ j }
    ensures { (result ≡ bit c j) × (result < 2) }
{
    if c & m == m { 1 } else { 0 }
}

// Each byte of d becomes a cell: bit j of the byte of s at its index.
fn cells(d: &mut [u8], s: &[u8], j: u32, m: u8)
    requires { (length d.old ≤ length s.now) × (m ≡ 2 ^ j) }
    ensures { Ranged 0 0 (length d.old) (λ k. bit (get_or s.now k 0) j) d.old d.new }
{
    for k in 0..d.len() {
        d[k] = held(s[k], j, m);
    }
}

// The cell with these two levels.
fn cell(one: u8, some: u8) -> u8
    requires { (one < 2) × (some < 2) }
    ensures { result ≡ of_levels one some }
{
    if some == 0 { 0 } else { 2 - one }
}

// Each byte of d becomes the cell whose levels are bit j of the bytes of s and t at its index.
fn pairs(d: &mut [u8], s: &[u8], t: &[u8], j: u32, m: u8)
    requires { (length d.old ≤ length s.now) × (length d.old ≤ length t.now) × (m ≡ 2 ^ j) }
    ensures { Ranged 0 0 (length d.old) (pair_bit s.now t.now j) d.old d.new }
{
    for k in 0..d.len() {
        d[k] = cell(held(s[k], j, m), held(t[k], j, m));
    }
}

// The same of one plane, where t is s, or of two.
fn levels(d: &mut [u8], s: &[u8], t: &[u8], j: u32, two: bool)
    requires { Rows s.now t.now j two × (length d.old ≤ length s.now) }
    ensures { Ranged 0 0 (length d.old) (pair_bit s.now t.now j) d.old d.new }
{
    let m = mask(j);
    if two {
        pairs(d, s, t, j, m);
    } else {
        cells(d, s, j, m);
    }
}

// The same in two halves, which overlap so that each is a whole number of 32 cells: no few cells are left to be done one by one.
fn halves(d: &mut [u8], s: &[u8], t: &[u8], j: u32, two: bool)
    requires { Rows s.now t.now j two × (length d.old ≤ length s.now) }
    ensures { Ranged 0 0 (length d.old) (pair_bit s.now t.now j) d.old d.new }
{
    let n = d.len();
    if n < 64 {
        levels(d, s, t, j, two);
    } else {
        let h = (n - n / 2 + 31) / 32 * 32;
        levels(&mut d[0..h], s, t, j, two);
        levels(&mut d[n - h..n], &s[n - h..n], &t[n - h..n], j, two);
    }
}

// One row from bit j of a row of bytes of one plane, or of two.
fn line(row: &[u8], more: &[u8], d: &mut [u8], j: u32, a: usize, outside: u8, two: bool)
    requires { (length row.now ≤ 65535) × (a ≤ 65535) × Rows row.now more.now j two }
    ensures { Ranged 0 0 (length d.old) (λ x. shifted outside (length row.now)
        (pair_bit row.now more.now j) (x + a)) d.old d.new }
{
    let n = d.len();
    let m = row.len();
    let p = cuts::edge(n, a, 15);
    let e = cuts::edge(n, a, m + 15);
    if e <= p {
        ranges::fill(d, outside);
        return;
    }
    ranges::fill(&mut d[0..p], outside);
    let b = p + a - 15;
    halves(&mut d[p..e], &row[b..m], &more[b..m], j, two);
    ranges::fill(&mut d[e..n], outside);
}

// One row from the plane's row t − 15, or from above or below the plane's rows.
fn across(src: &[u8], d: &mut [u8], plane: Sides, a: usize, t: usize, o: usize)
    requires { (o + plane_size plane.columns plane.rows ≤ length src.now) × (plane.columns ≤ 65535) × (plane.rows ≤ 65535) × (a ≤ 65535) × (o ≤ 65535) }
    ensures { Ranged 0 0 (length d.old) (λ x. seen plane.outside plane.columns plane.rows (plane_cells o plane.columns plane.rows src.now) (x + a) t) d.old
        d.new }
{
    if t < 15 || plane.rows <= t - 15 {
        ranges::fill(d, plane.outside);
        return;
    }
    let w = plane.columns;
    let y = t - 15;
    let q = (y / 8 + 1) * (w + 2) + 2;
    let r = o + q;
    line(
        &src[q..q + w],
        &src[r..r + w],
        d,
        (y % 8) as u32,
        a,
        plane.outside,
        o != 0,
    );
}

// All rows, the first first.
pub(crate) fn down(src: &[u8], dst: &mut [u8], part: Part, plane: Sides, o: usize)
    requires { (o + plane_size plane.columns plane.rows ≤ length src.now) × (part.w * part.h ≤ length dst.old) × (part.w ≤ 65535) × (part.h ≤ 65535) ×
        (plane.columns ≤ 65535) × (plane.rows ≤ 65535) × (part.a ≤ 65535) × (part.b ≤ 65535) × (o ≤ 65535) }
    ensures { dst.new ≡ over_front (part.w * part.h) (cut_out plane.outside part.w part.h plane.columns plane.rows part.a part.b
        (plane_cells o plane.columns plane.rows src.now)) dst.old }
{
    for y in 0..part.h {
        let p = y * part.w;
        across(src, &mut dst[p..p + part.w], plane, part.a, y + part.b, o);
    }
}

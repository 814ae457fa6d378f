// Columns and rows cut out of a source at a distance, on flat slices of bytes: cut. It goes row by row, and a row is at most three ranges. The value of
// cells that the source does not have is the caller's. Cell x of a row is the source's x + a − 15, and so for rows with b.
#![tactic(auto)]

ghost use Rattle.std.specs.Prelude.{◌≡◌, ◌+◌, ◌*◌, ◌≤◌, length, get_or};
ghost use Rattle.ranges.specs.Ranges.{over_front, Laid, Ranged};
ghost use Rattle.cuts.specs.Cuts.{cut_out, Cut, shifted, seen};

use cuts::{Part, Sides};

// One row from a row of the source: the cells left of that row, those of it, and those right of it.
fn line(row: &[u8], d: &mut [u8], a: usize, outside: u8)
    requires { (length row.now ≤ 65535) × (a ≤ 65535) }
    ensures { Ranged 0 0 (length d.old) (λ x. shifted outside (length row.now) (λ i. get_or row.now i 0)
        (x + a)) d.old d.new }
{
    let n = d.len();
    let m = row.len();
    let p = cuts::edge(n, a, 15);
    let e = cuts::edge(n, a, m + 15);
    if e <= p {
        ranges::fill(d, outside);
        return;
    }
    ranges::fill(&mut d[0..p], outside);
    ranges::copy(&mut d[p..e], &row[p + a - 15..m]);
    ranges::fill(&mut d[e..n], outside);
}

// One row from the source's row t − 15, or from above or below the source.
fn across(src: &[u8], d: &mut [u8], source: Sides, a: usize, t: usize)
    requires { (source.columns * source.rows ≤ length src.now) × (source.columns ≤ 65535) × (source.rows ≤ 65535) × (a ≤ 65535) }
    ensures { Ranged 0 0 (length d.old) (λ x. seen source.outside source.columns source.rows src.now (x + a) t) d.old d.new }
{
    if t < 15 || source.rows <= t - 15 {
        ranges::fill(d, source.outside);
        return;
    }
    let q = (t - 15) * source.columns;
    line(&src[q..q + source.columns], d, a, source.outside);
}

// The rows of a part, the first first.
fn upper(src: &[u8], dst: &mut [u8], part: Part, source: Sides)
    requires { (source.columns * source.rows ≤ length src.now) × (part.w * part.h ≤ length dst.old) ×
        (part.w ≤ 65535) × (part.h ≤ 65535) × (source.columns ≤ 65535) × (source.rows ≤ 65535) × (part.a ≤ 65535) × (part.b ≤ 65535) }
    ensures { Laid (λ x y. seen source.outside source.columns source.rows src.now (x + part.a) (y + part.b)) part.w part.h dst.old dst.new }
{
    for y in 0..part.h {
        let p = y * part.w;
        across(src, &mut dst[p..p + part.w], source, part.a, y + part.b);
    }
}

// All rows: one by one as far as the source goes, and those below it in one run. A loop over all of them would look, to the compiler, as if it read past the
// source, and where the image stands there, cells would be copied one at a time.
fn down(src: &[u8], dst: &mut [u8], part: Part, source: Sides)
    requires { (source.columns * source.rows ≤ length src.now) × (part.w * part.h ≤ length dst.old) ×
        (part.w ≤ 65535) × (part.h ≤ 65535) × (source.columns ≤ 65535) × (source.rows ≤ 65535) × (part.a ≤ 65535) × (part.b ≤ 65535) }
    ensures { dst.new ≡ over_front (part.w * part.h) (cut_out source.outside part.w part.h source.columns source.rows part.a part.b src.now) dst.old }
{
    let n = cuts::edge(part.h, part.b, source.rows + 15);
    upper(src, dst, Part { h: n, ..part }, source);
    ranges::fill(&mut dst[n * part.w..part.h * part.w], source.outside);
}

// Cuts a part out of the source in src into dst: cell (x, y) becomes the source's (x + a − 15, y + b − 15), and outside where the source has no such cell.
// False, with nothing written, where sizes do not fit.
pub fn cut(src: &[u8], dst: &mut [u8], part: Part, source: Sides) -> bool
    ensures { Cut source.outside part.w part.h source.columns source.rows part.a part.b src.now dst.old result dst.new }
{
    if !part.cut_fits(source, src.len(), dst.len()) {
        return false;
    }
    down(src, dst, part, source);
    true
}

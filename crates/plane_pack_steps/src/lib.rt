// One level of a frame packed into a plane, eight rows at a time: pack.
#![tactic(auto)]

ghost use Rattle.std.specs.Prelude.{◌≡◌, ◌+◌, ◌*◌, ◌≤◌, min, leb, length};
ghost use Rattle.planes.specs.Planes.{place_of, pack_fits, FramePacked, Packed};
ghost use Rattle.plane_pack_steps.specs.Packing.{GroupPut, LeadPut, Packable, lead_of, Until};

use cuts::Sides;
use planes::Packing;

// Whether the frame in n bytes goes into the plane in k bytes.
fn pack_fits(frame: Packing, plane: Sides, n: usize, k: usize) -> bool
    ensures { result ≡ pack_fits plane.outside frame.far frame.w frame.h plane.columns plane.rows n k }
{
    let s = frame.place();
    planes::sides(plane)
        && fits_at(frame.w, s, plane.columns)
        && fits_at(frame.h, s, plane.rows)
        && frame.w * frame.h <= n
        && planes::size(plane) <= k
}

// Whether n cells from the place s on are at most m.
fn fits_at(n: usize, s: usize, m: usize) -> bool
    ensures { result ≡ leb (n + s) m }
{
    s <= m && n <= m - s
}

// The next group, of which a rows are left: cells of f from q on, into the bytes of dst from p on, with the bits of outside above them.
fn next(f: &[u8], dst: &mut [u8], w: usize, a: usize, p: usize, q: usize, outside: u8, some: bool)
    requires { (w ≤ 65535) × (p + w ≤ length dst.old) × (q + min a 8 * w ≤ length f.now) }
    ensures { GroupPut some w a p q outside f.now dst.old dst.new }
{
    let r = a.min(8);
    plane_group_steps::group(&mut dst[p..p + w], &f[q..q + r * w], w, r, outside, some);
}

// The first row of f, w cells, into bit 7 of the bytes of dst from p on: where a frame stands at row 15, that row ends a row of bytes.
fn lead(f: &[u8], dst: &mut [u8], w: usize, p: usize, outside: u8, some: bool)
    requires { (p + w ≤ length dst.old) × (w ≤ length f.now) × (outside ≤ 1) }
    ensures { LeadPut some w p outside f.now dst.old dst.new }
{
    plane_group_steps::top(&mut dst[p..p + w], &f[0..w], outside, some);
}

// How many rows of the frame stand before the first that begins a row of bytes.
fn leading(far: bool) -> usize
    ensures { result ≡ lead_of far }
{
    usize::from(far)
}

// Group after group of eight rows, from the first that begins a row of bytes on; what stands before is packed, and the rest of the plane has the value outside.
fn grouped(f: &[u8], dst: &mut [u8], frame: Packing, plane: Sides)
    requires { Packable plane.outside frame.far frame.w frame.h plane.columns plane.rows f.now dst.old × (lead_of frame.far ≤ frame.h) ×
        Until frame.some plane.outside (place_of frame.far) frame.w frame.h plane.columns plane.rows (lead_of frame.far) f.now dst.old }
    ensures { FramePacked frame.some plane.outside frame.far frame.w frame.h plane.columns plane.rows f.now dst.old dst.new }
{
    let s = plane.columns + 2;
    let v = plane.outside * 255;
    let mut y = leading(frame.far);
    let mut p = (2 * y + 1) * s + 15 * y + 2;
    let mut q = y * frame.w;
    // A `while`: over y alone, p and q would be made from it by a division and two products a turn.
    while y < frame.h {
        next(f, dst, frame.w, frame.h - y, p, q, v, frame.some);
        p += s;
        q += 8 * frame.w;
        y += 8;
    }
}

// The value outside everywhere, and then the frame's rows.
fn fill(f: &[u8], dst: &mut [u8], frame: Packing, plane: Sides)
    requires { Packable plane.outside frame.far frame.w frame.h plane.columns plane.rows f.now dst.old }
    ensures { FramePacked frame.some plane.outside frame.far frame.w frame.h plane.columns plane.rows f.now dst.old dst.new }
{
    let n = planes::size(plane);
    ranges::fill(&mut dst[0..n], plane.outside * 255);
    if frame.h == 0 {
        return;
    }
    if frame.far {
        lead(
            f,
            dst,
            frame.w,
            2 * (plane.columns + 2) + 17,
            plane.outside,
            frame.some,
        );
    }
    grouped(f, dst, frame, plane);
}

// Packs one level of the frame in f, whether cells are 1 or, if some, whether they are not 0, into the plane in dst, with its cell (0, 0) at that of the plane,
// or, if far, at (15, 15), and the value outside around it. False, with nothing written, where sizes do not fit, or the value outside is neither 0 nor 1.
pub fn pack(f: &[u8], dst: &mut [u8], frame: Packing, plane: Sides) -> bool
    ensures { Packed frame.some plane.outside frame.far frame.w frame.h plane.columns plane.rows f.now dst.old result dst.new }
{
    if !pack_fits(frame, plane, f.len(), dst.len()) {
        return false;
    }
    fill(f, dst, frame, plane);
    true
}

// Columns and rows cut out of a plane, or of two that have both levels, at a distance, a byte a cell: unpack. Cell (x, y) becomes the planes' (x + a − 15,
// y + b − 15).
#![tactic(auto)]

mod lines;

ghost use Rattle.std.specs.Prelude.{◌≡◌};
ghost use Rattle.planes.specs.Planes.{unpack_fits, Unpacked};

use cuts::{Part, Sides};

// Whether the part in k bytes is cut out of planes in n bytes, the second from byte o on.
fn unpack_fits(part: Part, plane: Sides, o: usize, n: usize, k: usize) -> bool
    ensures { result ≡ unpack_fits o part.w part.h plane.columns plane.rows part.a part.b n k }
{
    part.sides_fit(plane) && o <= 65535 && o + planes::size(plane) <= n && part.w * part.h <= k
}

// Cuts a part out of the plane in src, and of the second from byte o on, which is the same if o is 0, into dst: cell (x, y) becomes the planes' (x + a − 15,
// y + b − 15), and outside where they have no such cell. False, with nothing written, where sizes do not fit.
pub fn unpack(src: &[u8], dst: &mut [u8], part: Part, plane: Sides, o: usize) -> bool
    ensures { Unpacked o plane.outside part.w part.h plane.columns plane.rows part.a part.b src.now dst.old result dst.new }
{
    if !unpack_fits(part, plane, o, src.len(), dst.len()) {
        return false;
    }
    lines::down(src, dst, part, plane, o);
    true
}

// The stage on planes (stage): a mask's rows, each a pass over all bytes of the plane, and then the value outside again wherever the plane has no cell of the
// picture. So the next stage finds it there, and no pass has a case for an edge.
#![tactic(auto)]

mod bounds;

ghost use Rattle.std.specs.Prelude.{◌≡◌, ◌<◌, ◌≤◌, length};
ghost use Rattle.planes.specs.Planes.{last_rows, plane_size, stage_fits, PlaneTaken, PlaneStaged};

use cuts::Sides;
use planes::Stage;

// How many rows of cells the last row of bytes has.
fn last_rows(rows: usize) -> u32
    requires { rows ≤ 65535 }
    ensures { result ≡ last_rows rows }
{
    ((rows + 7) % 8) as u32 + 1
}

// Whether the plane is there to be read in n bytes and written in k.
fn stage_fits(plane: Sides, n: usize, k: usize) -> bool
    ensures { result ≡ stage_fits plane.outside plane.columns plane.rows n k }
{
    planes::sides(plane) && planes::size(plane) <= n && planes::size(plane) <= k
}

// The passes, and then the bounds.
fn take(src: &[u8], dst: &mut [u8], plane: Sides, stage: Stage)
    requires { (0 < plane.rows) × (plane.columns ≤ 65535) × (plane.rows ≤ 65535) × (plane.outside ≤ 1) ×
        (plane_size plane.columns plane.rows ≤ length src.now) × (plane_size plane.columns plane.rows ≤ length dst.old) }
    ensures { PlaneTaken stage.erode plane.outside plane.columns plane.rows stage.mask src.now dst.old dst.new }
{
    let s = plane.columns + 2;
    let n = (plane.rows + 7) / 8;
    plane_row_steps::rows(&mut dst[s + 2..n * s + s], src, s, stage);
    bounds::bound(dst, s, n, last_rows(plane.rows), plane.outside * 255);
}

// Takes the plane in src through the stage into dst. False, with nothing written, where sizes do not fit, or the value outside is neither 0 nor 1.
pub fn stage(src: &[u8], dst: &mut [u8], plane: Sides, stage: Stage) -> bool
    ensures { PlaneStaged stage.erode plane.outside plane.columns plane.rows stage.mask src.now dst.old result dst.new }
{
    if !stage_fits(plane, src.len(), dst.len()) {
        return false;
    }
    take(src, dst, plane, stage);
    true
}

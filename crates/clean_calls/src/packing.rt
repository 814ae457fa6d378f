// A frame packed into the first work image: into one plane where all cells were measured, else both levels of it into two, of which the second starts where the
// first ends.
ghost use Rattle.std.specs.Prelude.{◌+◌, ◌≤◌, true};
ghost use Rattle.grids.specs.Grid.{outside_of};
ghost use Rattle.planes.specs.Planes.{far_of, Packed};
ghost use Rattle.cleaning.specs.Operation.{around};
ghost use Rattle.clean_calls.specs.Packing.{FramePackable, SecondPacked, LevelsPacked};

use cleaning::Operation;
use cuts::Sides;
use grids::Around;
use planes::Packing;

// One level packed into a plane in the image, in the kind of grid that the operation works in: erosion's frame stands at (15, 15), among occupied cells.
fn level(op: Operation, w: usize, h: usize, frame: &[u8], first: &mut [u8], some: bool) -> bool
    requires { (w ≤ 240) × (h ≤ 240) }
    ensures { Packed some (outside_of (around op)) (far_of (around op)) w h (w + 15) (h + 15) frame.now first.old result
        first.new }
{
    let around = op.around();
    let placed = Packing {
        w,
        h,
        far: around == Around::Occupied,
        some,
    };
    let plane = Sides {
        columns: w + 15,
        rows: h + 15,
        outside: around.outside(),
    };
    plane_pack_steps::pack(frame, first, placed, plane)
}

// The second level, behind the first plane.
fn second_level(op: Operation, w: usize, h: usize, frame: &[u8], first: &mut [u8])
    requires { FramePackable true w h frame.now first.old }
    ensures { SecondPacked (around op) w h frame.now first.old first.new }
{
    let o = turn_steps::plane_bytes(w, h);
    level(op, w, h, frame, &mut first[o..], true);
}

// Both levels: one plane has them where no cell is 2.
pub(crate) fn levels(op: Operation, w: usize, h: usize, frame: &[u8], first: &mut [u8], two: bool)
    requires { FramePackable two w h frame.now first.old }
    ensures { LevelsPacked two (around op) w h frame.now first.old first.new }
{
    level(op, w, h, frame, first, false);
    if two {
        second_level(op, w, h, frame, first);
    }
}

// The result is cut from the last plane, or the last two, into the image that the plane does not stand in, by the plan's offset.
ghost use Rattle.std.specs.Prelude.{◌≡◌, false, ◌+◌, ◌≤◌};
ghost use Rattle.words.specs.Word.{place_x, place_y};
ghost use Rattle.grids.specs.Frame.{bad_size};
ghost use Rattle.planes.specs.Planes.{second_at};
ghost use Rattle.result_steps.specs.Cutting.{distance, Room, CutAway};

use cleaning::Operation;
use cuts::{Part, Sides};

// 15 more than what is added to a coordinate of the result to find the byte that is read, from the place's field for that coordinate. The grid of erosion
// starts 15 columns and rows before the others.
fn ahead(op: Operation, field: u32) -> usize
    requires { field ≤ 30 }
    ensures { result ≡ distance op field }
{
    match op {
        Operation::Dilation => 30 - field as usize,
        Operation::Erosion => field as usize + 15,
        Operation::Opening | Operation::Closing => 15,
    }
}

// Where the second plane starts.
fn second_at(w: usize, h: usize, two: bool) -> usize
    requires { bad_size w h ≡ false }
    ensures { result ≡ second_at two (w + 15) (h + 15) }
{
    if two {
        turn_steps::plane_bytes(w, h)
    } else {
        0
    }
}

// The cut after t stages.
pub(crate) fn cut(
    op: Operation,
    place: u32,
    t: usize,
    w: usize,
    h: usize,
    first: &mut [u8],
    second: &mut [u8],
    two: bool,
)
    requires { (place_x place ≤ 30) × (place_y place ≤ 30) × Room w h first.old second.old }
    ensures { CutAway two op place w h t first.old second.old first.new second.new }
{
    let a = ahead(op, place % 256);
    let b = ahead(op, place / 256 % 256);
    let part = Part { w, h, a, b };
    let plane = Sides {
        columns: w + 15,
        rows: h + 15,
        outside: op.around().outside(),
    };
    let o = second_at(w, h, two);
    let even = t % 2 == 0;
    if even {
        plane_unpack_steps::unpack(first, second, part, plane, o);
    } else {
        plane_unpack_steps::unpack(second, first, part, plane, o);
    }
}

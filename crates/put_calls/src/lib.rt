// Putting a frame into a grid of either kind: all grounds are tried before the first byte is written.
#![tactic(auto)]

ghost use Rattle.std.specs.Prelude.{◌≡◌, ◌-◌};
ghost use Rattle.grids.specs.Grid.{outside_of, start_of, FramePut};

use cuts::{Part, Sides};
use grids::Around;
use words::Answer;

// The value outside a kind of grid, and around the frame in it.
pub fn outside(around: Around) -> u8
    ensures { result ≡ outside_of around }
{
    around.outside()
}

// 15 less where it starts.
fn distance(around: Around) -> usize
    ensures { result ≡ 15 - start_of around }
{
    match around {
        Around::Free => 15,
        Around::Occupied => 0,
    }
}

// Putting: the frame into the grid of the image, with the rest of the grid as the plane is outside it. The grid is cut out of the frame, 15 being no distance.
pub fn put(w: usize, h: usize, frame: &[u8], around: Around, image: &mut [u8]) -> Answer
    ensures { FramePut around w h frame.now image.old result image.new }
{
    frame_grounds::put_refusal(w, h, frame, image)?;
    let d = distance(around);
    let grid = Part {
        w: w + 15,
        h: h + 15,
        a: d,
        b: d,
    };
    let source = Sides {
        columns: w,
        rows: h,
        outside: outside(around),
    };
    cut_steps::cut(frame, image, grid, source);
    Ok(0)
}

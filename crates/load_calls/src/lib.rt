// The load of a frame, as a number of cells and in ten-thousandths: the frame's grounds first, then its occupied cells are counted.
#![tactic(auto)]

ghost use Rattle.std.specs.Prelude.{◌≡◌, ◌*◌, ◌/◌, ◌%◌, ◌≤◌, ◌<◌, length};
ghost use Rattle.grids.specs.Frame.{LoadCounted};
ghost use Rattle.grids.specs.Share.{Shared};
ghost use Rattle.grids.specs.Share.{measured as measuredOf};
ghost use Rattle.cell_steps.specs.Leaves.{greatest_of};

use grids::{Share, ShareAnswer};
use words::{Answer, Ground};

// The load: the number of occupied cells in a frame.
#[tactic(auto, using(frame_grounds::proofs::Accepted::countable, cell_steps::proofs::Loops::times_load))]
pub fn load(w: usize, h: usize, frame: &[u8]) -> Answer
    ensures { LoadCounted w h frame.now result }
{
    frame_grounds::frame_refusal(w, h, frame)?;
    Ok(cell_steps::times(frame, 1))
}

// The number of measured cells of a frame whose greatest number is this: all of them where none is 2.
#[tactic(auto, using(cell_steps::proofs::Loops::counted_most, cell_steps::proofs::Loops::times_measured, cell_steps::proofs::Loops::all_measured))]
fn measured(frame: &[u8], greatest: u8) -> u32
    requires { (length frame.now ≤ 57600) × (greatest ≡ greatest_of frame.now) }
    ensures { result ≡ measuredOf frame.now }
{
    let all = frame.len() as u32;
    if greatest < 2 {
        all
    } else {
        all - cell_steps::times(frame, 2)
    }
}

// Some of all cells, in ten-thousandths.
fn ten_thousandths(some: u32, all: u32) -> Share
    requires { (some ≤ 57600) × (0 < all) }
    ensures { (result.quotient ≡ 10000 * some / all) × (result.remainder ≡ 10000 * some % all) }
{
    let n = 10_000 * some;
    Share {
        quotient: n / all,
        remainder: n % all,
    }
}

// The load in ten-thousandths of the cells that were measured; where none was, the frame is refused.
pub fn share(w: usize, h: usize, frame: &[u8]) -> ShareAnswer
    ensures { Shared w h frame.now result }
{
    let greatest = frame_grounds::greatest_cell(w, h, frame);
    frame_grounds::frame_tested(w, h, frame, greatest)?;
    let all = measured(frame, greatest);
    words::tried(all == 0, Ground::NoneMeasured)?;
    let n = cell_steps::times(frame, 1);
    Ok(ten_thousandths(n, all))
}

// The four operations on a plan list, a frame and two work images: dilation, erosion, opening and closing. Each tries all grounds before it writes a byte,
// packs the frame into a plane in the first image, or into two where a cell was not measured (`packing`), and runs the stages and cuts the result by
// `result_steps`.
#![tactic(auto)]

mod packing;

ghost use Rattle.std.specs.Prelude.{◌≡◌};
ghost use Rattle.words.specs.Ground.{refused_by, first_of};
ghost use Rattle.frame_grounds.specs.Looking.{greatest_cell};
ghost use Rattle.cleaning.specs.declared.Operation.TheVariants.{Dilation, Erosion, Opening, Closing};
ghost use Rattle.cleaning.specs.Cleaning.{operation_tests, Cleaned};

use cleaning::Operation;
use words::{Answer, Ground};

// What refuses an operation on a frame whose greatest number is this: the first of grounds 1 to 3, 5 to 8 and 11 to 14 that holds; Ok(()) where none does.
#[tactic(auto, using(crate::proofs::Accepted::operation_first, frame_grounds::proofs::Looked::work_by))]
fn refused(
    plan: &[u32],
    w: usize,
    h: usize,
    frame: &[u8],
    greatest: u8,
    first: &[u8],
    second: &[u8],
) -> Result<(), Ground>
    requires { greatest ≡ greatest_cell w h frame.now }
    ensures { refused_by result ≡ first_of (operation_tests plan.now w h frame.now first.now second.now) }
{
    plan_grounds::plan_refusal(plan)?;
    frame_grounds::work_refusal(w, h, frame, greatest, first, second)
}

// An operation. Returns the number of stages run.
fn clean(
    op: Operation,
    plan: &[u32],
    w: usize,
    h: usize,
    frame: &[u8],
    first: &mut [u8],
    second: &mut [u8],
) -> Answer
    ensures { Cleaned op plan.now w h frame.now first.old second.old result first.new
        second.new }
{
    let greatest = frame_grounds::greatest_cell(w, h, frame);
    refused(plan, w, h, frame, greatest, first, second)?;
    let two = greatest > 1;
    packing::levels(op, w, h, frame, first, two);
    let n = result_steps::run(op, plan, w, h, first, second, two);
    Ok(n as u32)
}

// Dilation by the plan's points.
pub fn dilation(
    plan: &[u32],
    w: usize,
    h: usize,
    frame: &[u8],
    first: &mut [u8],
    second: &mut [u8],
) -> Answer
    ensures { Cleaned Dilation plan.now w h frame.now first.old second.old result first.new
        second.new }
{
    clean(Operation::Dilation, plan, w, h, frame, first, second)
}

// Erosion by the plan's points.
pub fn erosion(
    plan: &[u32],
    w: usize,
    h: usize,
    frame: &[u8],
    first: &mut [u8],
    second: &mut [u8],
) -> Answer
    ensures { Cleaned Erosion plan.now w h frame.now first.old second.old result first.new
        second.new }
{
    clean(Operation::Erosion, plan, w, h, frame, first, second)
}

// Opening: erosion, then dilation.
pub fn opening(
    plan: &[u32],
    w: usize,
    h: usize,
    frame: &[u8],
    first: &mut [u8],
    second: &mut [u8],
) -> Answer
    ensures { Cleaned Opening plan.now w h frame.now first.old second.old result first.new
        second.new }
{
    clean(Operation::Opening, plan, w, h, frame, first, second)
}

// Closing: dilation, then erosion.
pub fn closing(
    plan: &[u32],
    w: usize,
    h: usize,
    frame: &[u8],
    first: &mut [u8],
    second: &mut [u8],
) -> Answer
    ensures { Cleaned Closing plan.now w h frame.now first.old second.old result first.new
        second.new }
{
    clean(Operation::Closing, plan, w, h, frame, first, second)
}

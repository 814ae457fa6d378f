// An operation's result, on a frame that is packed into a plane in the first of two work images, or into two that have both levels of it: the stages are run
// (`levels`), and the result is cut from the last plane, or planes, into the other image (`results`).
#![tactic(auto)]

mod levels;
mod results;

ghost use Rattle.std.specs.Prelude.{◌≡◌, true, false};
ghost use Rattle.result_steps.specs.Running.{Runnable, TurnsRun};

use cleaning::Operation;

// Whether the plan list and the images can be run: 2 to 32 words, a place within its range, sides that pass, and room for the grid in both images.
fn runnable(plan: &[u32], w: usize, h: usize, first: &[u8], second: &[u8]) -> bool
    ensures yes { result ≡ true → Runnable plan.now w h first.now second.now }
    ensures no { result ≡ false → Runnable plan.now w h first.now second.now → ⊥ }
{
    (2..=32).contains(&plan.len())
        && plan[1] % 256 <= 30
        && plan[1] / 256 % 256 <= 30
        && !frame_grounds::bad_size(w, h)
        && (w + 15) * (h + 15) <= first.len().min(second.len())
}

// The stages of an operation, on the plane in the first image, or on the two, and the cut of the result. Returns the number of stages run; 0, with the images
// as they were, where the plan list or the images cannot be run.
pub fn run(
    op: Operation,
    plan: &[u32],
    w: usize,
    h: usize,
    first: &mut [u8],
    second: &mut [u8],
    two: bool,
) -> usize
    ensures { TurnsRun two op plan.now w h first.old second.old result first.new second.new }
{
    if !runnable(plan, w, h, first, second) {
        return 0;
    }
    let n = levels::stages(op, plan, w, h, first, second, two);
    results::cut(op, plan[1], n, w, h, first, second, two);
    n
}

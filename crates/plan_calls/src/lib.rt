// Planning on lists of words: a shape list in, the list of its shortest plan out, or the answer that no chain exists.
// All grounds are tried, and the search is over, before the first word is written.
#![tactic(auto)]

ghost use Rattle.std.specs.Prelude.{◌≤◌, length};
ghost use Rattle.planning.specs.Planning.{Planned};
ghost use Rattle.rows.specs.Cells.{chosen};
ghost use Rattle.plan_calls.specs.Written.{WrittenPlan};

use search_steps::Chosen;
use words::{Answer, Ground};

// Writes the words of a plan, its place fields x and y and the stages of p, and answers how many they are.
fn write_plan(x: u32, y: u32, p: Chosen, out: &mut [u32]) -> u32
    requires { (x ≤ 30) × ((y ≤ 30) × ((p.n ≤ 30) × (32 ≤ length out.old))) }
    ensures { WrittenPlan x y (chosen p.masks p.n) out.old result out.new }
{
    let Chosen { n, masks } = p;
    out[0] = 0x3000_0000 + n as u32;
    out[1] = 0x4000_0000 + y * 256 + x;
    for i in 0..n {
        out[i + 2] = 0x5000_0000 + masks[n - 1 - i] as u32;
    }
    n as u32 + 2
}

// Planning: the list of the shape's shortest plan, of several such the one whose masks are smallest at the first difference.
pub fn plan(ws: &[u32], out: &mut [u32]) -> Answer
    ensures { Planned ws.now out.old result out.new }
{
    shape_grounds::shape_refusal(ws)?;
    if out.len() < 32 {
        return Err(Ground::OutputLength);
    }
    let s = shape_calls::read_shape(ws);
    let chosen = search_steps::shortest(s.rows).ok_or(Ground::NoChain)?;
    Ok(write_plan(s.x, s.y, chosen, out))
}

// A row arrives in the live frame, and the dilated frame kept beside it is brought up to date: its rows are moved as the live frame's are, and those that
// lie no farther from an end than the plan's points reach are worked out anew (end_steps) from the rows of the live frame near them.
#![tactic(auto)]

ghost use Rattle.rolling.specs.Ends.{EndPut};
ghost use Rattle.rolling.specs.Rolling.{Arrived};
ghost use Rattle.rolling_calls.specs.Rows.{EndReady, Reworked, BothPut};

use words::Answer;

// Rows b to b + t of the kept frame, from e rows of the live one, from row a on.
fn end(plan: &[u32], w: usize, live: &[u8], a: usize, e: usize, kept: &mut [u8], b: usize, t: usize)
    requires { EndReady plan.now w a e live.now b t kept.old }
    ensures { EndPut plan.now w a e live.now b t kept.old kept.new }
{
    end_steps::rows(
        plan,
        w,
        e,
        &live[a * w..(a + e) * w],
        b - a,
        t,
        &mut kept[b * w..(b + t) * w],
    );
}

// Rows no farther than y from an end: those near row 0 from the first rows of the live frame, those near the last row from its last.
fn anew(plan: &[u32], w: usize, h: usize, y: usize, live: &[u8], kept: &mut [u8])
    requires { Reworked plan.now w h y live.now kept.old }
    ensures { BothPut plan.now w h y live.now kept.old kept.new }
{
    let e = h.min(2 * y + 1);
    let t = h.min(y + 1);
    end(plan, w, live, 0, e, kept, 0, t);
    end(plan, w, live, h - e, e, kept, h - t, t);
}

// A row arrives. Both frames are written; a refusal changes neither. The last row of the kept frame is always worked out anew, so what is moved in there is no
// matter.
pub fn arrive(
    plan: &[u32],
    w: usize,
    h: usize,
    row: &[u8],
    live: &mut [u8],
    kept: &mut [u8],
) -> Answer
    ensures { Arrived plan.now w h row.now live.old kept.old result live.new kept.new }
{
    rolling_grounds::arrival_refusal(plan, w, h, row, live, kept)?;
    rolling_steps::roll(live, row);
    rolling_steps::roll(kept, row);
    let y = plan_steps::reach(plan) as usize;
    anew(plan, w, h, y, live, kept);
    Ok(0)
}

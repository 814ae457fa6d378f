// How far a plan's stages go, across or down, and how far its points reach up or down. No point is built.
#![tactic(auto)]

ghost use Rattle.std.specs.Prelude.{◌≡◌, ◌⊎◌, ◌+◌, ◌-◌, ◌≤◌, ◌<◌, length, drop};
ghost use Rattle.plan_steps.specs.Extent.{extent_of, reach_of};

// The sum of the stages' reaches.
fn total(ws: &[u32], down: bool) -> u32
    requires { length ws.now ≤ 32 }
    ensures sum { result ≡ extent_of down (drop 2 ws.now) }
    ensures small { result ≤ 64 }
{
    let mut sum = 0;
    for i in 2..ws.len() {
        sum += stage_steps::reach(ws[i] % 512, down);
    }
    sum
}

// How far the sum of the stages goes from 0, down its rows or across its columns; 0 of more words than a plan has.
pub fn extent(ws: &[u32], down: bool) -> u32
    ensures of_a_plan { length ws.now ≤ 32 → result ≡ extent_of down (drop 2 ws.now) }
    ensures of_more { 32 < length ws.now → result ≡ 0 }
{
    if ws.len() > 32 { 0 } else { total(ws, down) }
}

// How far the plan's points reach up or down: the greater of |dy| and |dy + h|, with h the sum of the stages' heights; 0 of fewer or more words than a plan
// has.
pub fn reach(ws: &[u32]) -> u32
    ensures of_a_plan { 2 ≤ length ws.now → length ws.now ≤ 32 → result ≡ reach_of ws.now }
    ensures of_others { (length ws.now < 2) ⊎ (32 < length ws.now) → result ≡ 0 }
{
    if !(2..=32).contains(&ws.len()) {
        return 0;
    }
    let field = ws[1] / 256 % 256;
    field
        .abs_diff(15)
        .max((field + total(ws, true)).abs_diff(15))
}

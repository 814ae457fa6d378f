// What refuses an arriving row: the first of grounds 1 to 3 and 5 to 8 of the plan, 11, 12 over the live and the kept frame, 15, and 13 over both frames and
// the row that holds; Ok(()) where none does.
#![tactic(auto)]

ghost use Rattle.std.specs.Prelude.{◌≡◌, false, ◌||◌};
ghost use Rattle.words.specs.Ground.{refused_by, first_of};
ghost use Rattle.grids.specs.Frame.{bad_size, wrong_length, bad_cell};
ghost use Rattle.rolling.specs.Rolling.{arrival_tests};

use words::Ground;

// Ground 12 over both frames. It follows ground 11, so nothing is said of sides that this refuses.
fn wrong_lengths(w: usize, h: usize, live: &[u8], kept: &[u8]) -> bool
    ensures { bad_size w h ≡ false → result ≡ (wrong_length w h live.now || wrong_length w h kept.now) }
{
    !frame_grounds::bad_size(w, h) && (live.len() != w * h || kept.len() != w * h)
}

// Ground 13 over both frames and the row.
fn bad_cells(live: &[u8], kept: &[u8], row: &[u8]) -> bool
    ensures { result ≡ (bad_cell live.now || bad_cell kept.now || bad_cell row.now) }
{
    cell_steps::bad_among(live, live.len())
        || cell_steps::bad_among(kept, kept.len())
        || cell_steps::bad_among(row, row.len())
}

// The first ground that holds. Cells are looked at where all before them pass.
#[tactic(auto, using(crate::proofs::Arriving::arrival_first))]
pub fn arrival_refusal(
    plan: &[u32],
    w: usize,
    h: usize,
    row: &[u8],
    live: &[u8],
    kept: &[u8],
) -> Result<(), Ground>
    ensures { refused_by result ≡ first_of (arrival_tests plan.now w h row.now live.now kept.now) }
{
    plan_grounds::plan_refusal(plan)?;
    words::tried(frame_grounds::bad_size(w, h), Ground::FrameSize)?;
    words::tried(wrong_lengths(w, h, live, kept), Ground::FrameLength)?;
    words::tried(row.len() != w, Ground::RowLength)?;
    words::tried(bad_cells(live, kept, row), Ground::CellValue)
}

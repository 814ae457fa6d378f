// The grounds of a single stage: its word, the sides, the greatest number in the grid read, and both images.
ghost use Rattle.std.specs.Prelude.{◌≡◌};
ghost use Rattle.words.specs.Ground.{refused_by, first_of};
ghost use Rattle.frame_grounds.specs.Looking.{stage_tests_by};

use super::sizes;
use words::Ground;

// The first ground that holds, of a grid whose greatest number is this.
#[tactic(auto, unfolding(crate::specs::Looking::stage_tests_by))]
pub(crate) fn refused(
    word: u32,
    w: usize,
    h: usize,
    from: &[u8],
    greatest: u8,
    to: &[u8],
) -> Result<(), Ground>
    ensures { refused_by result ≡ first_of (stage_tests_by word w h from.now greatest to.now) }
{
    words::tried(word / 0x1000_0000 != 5, Ground::WordKind)?;
    words::tried(word % 0x1000_0000 >= 512, Ground::ExtraBit)?;
    words::tried(!stage_steps::is_stage(word % 512), Ground::StageMask)?;
    words::tried(sizes::bad_size(w, h), Ground::FrameSize)?;
    words::tried(greatest > 2, Ground::CellValue)?;
    words::tried(sizes::short_images(w, h, from, to), Ground::ImageLength)
}

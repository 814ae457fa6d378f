// Grounds 1 to 4 of two shape lists, each ground over both.
ghost use Rattle.std.specs.Prelude.{◌≡◌};
ghost use Rattle.words.specs.Ground.{refused_by, first_of, both};
ghost use Rattle.shapes.specs.Shape.{shape_tests};

use super::shape;
use words::Ground;

// The first ground that holds, tried over both lists. Their words are looked at where both lengths pass ground 1.
#[tactic(auto, unfolding(shapes::specs::Shape::shape_tests))]
pub(crate) fn refused(ws: &[u32], vs: &[u32]) -> Result<(), Ground>
    ensures { refused_by result ≡ first_of (both (shape_tests ws.now) (shape_tests vs.now)) }
{
    words::tried(
        word_grounds::wrong_length(ws, 2, 17) || word_grounds::wrong_length(vs, 2, 17),
        Ground::ListLength,
    )?;
    words::tried(
        shape::wrong_kinds(ws) || shape::wrong_kinds(vs),
        Ground::WordKind,
    )?;
    words::tried(
        shape::extra_bits(ws) || shape::extra_bits(vs),
        Ground::ExtraBit,
    )?;
    words::tried(
        shape::wrong_rows(ws) || shape::wrong_rows(vs),
        Ground::RowOrder,
    )
}

// Grounds 1 to 4 of a shape list: one anchor and then its rows.
ghost use Rattle.std.specs.Prelude.{◌≡◌, ◌≤◌, length, drop};
ghost use Rattle.plane.specs.Lists.{any, any_next};
ghost use Rattle.words.specs.Ground.{refused_by, first_of};
ghost use Rattle.shapes.specs.Shape.{shape_tests, wrong_shape_kinds, wrong_shape_bits, wrong_shape_rows, empty_row, not_rising};

use words::Ground;

// Ground 2: whether the first word is no anchor, or some other no row.
pub(crate) fn wrong_kinds(ws: &[u32]) -> bool
    requires { 2 ≤ length ws.now }
    ensures { result ≡ wrong_shape_kinds ws.now }
{
    ws[0] / 0x1000_0000 != 1 || word_grounds::wrong_kind(ws, 1, 2)
}

// Ground 3: an anchor names 8 bits, a row 20.
pub(crate) fn extra_bits(ws: &[u32]) -> bool
    requires { 2 ≤ length ws.now }
    ensures { result ≡ wrong_shape_bits ws.now }
{
    ws[0] % 0x1000_0000 >= 256 || word_grounds::extra_bit(ws, 1, 0x10_0000)
}

// Whether some row has no column.
fn empty_row(ws: &[u32]) -> bool
    ensures { result ≡ any empty_row (drop 1 ws.now) }
{
    ws.iter().skip(1).any(|w| w % 0x1_0000 == 0)
}

// Whether the y of some row isn't above that of the row before.
fn not_rising(ws: &[u32]) -> bool
    ensures { result ≡ any_next not_rising (drop 1 ws.now) }
{
    let mut pairs = ws.iter().skip(1).zip(ws.iter().skip(2));
    pairs.any(|(v, w)| w / 0x1_0000 % 16 <= v / 0x1_0000 % 16)
}

// Ground 4: whether a row has no column, or its y isn't above the row before.
pub(crate) fn wrong_rows(ws: &[u32]) -> bool
    ensures { result ≡ wrong_shape_rows ws.now }
{
    empty_row(ws) || not_rising(ws)
}

// The first ground that holds. The words of a list are looked at where its length passes ground 1.
#[tactic(auto, unfolding(shapes::specs::Shape::shape_tests))]
pub(crate) fn refused(ws: &[u32]) -> Result<(), Ground>
    ensures { refused_by result ≡ first_of (shape_tests ws.now) }
{
    words::tried(word_grounds::wrong_length(ws, 2, 17), Ground::ListLength)?;
    words::tried(wrong_kinds(ws), Ground::WordKind)?;
    words::tried(extra_bits(ws), Ground::ExtraBit)?;
    words::tried(wrong_rows(ws), Ground::RowOrder)
}

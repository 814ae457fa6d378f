// What a word says, by its kind, and what a call answers: a result, or the ground that refuses it. The layout of words is in specs/Word.antt.
#![tactic(auto)]

ghost use Rattle.std.specs.Prelude.{◌≡◌};
ghost use Rattle.words.specs.Ground.{number_of, Tried, TriedAfter};
ghost use Rattle.words.specs.Read.{word_of};

// A word, read by its kind.
#[derive(Clone, Copy, Debug, PartialEq, Eq)]
pub enum Word {
    Anchor { ax: u32, ay: u32 },
    Row { y: u32, columns: u32 },
    Head(u32),
    Place { x: u32, y: u32 },
    Stage(u32),
    Unused(u32),
}

// The kind in the top four bits decides how the rest is read.
pub fn read(w: u32) -> Word
    ensures { result ≡ word_of w }
{
    let kind = w / 0x1000_0000;
    match kind {
        0 => Word::Unused(0),
        1 => Word::Anchor {
            ax: w % 16,
            ay: w / 16 % 16,
        },
        2 => Word::Row {
            y: w / 0x1_0000 % 16,
            columns: w % 0x1_0000,
        },
        3 => Word::Head(w % 256),
        4 => Word::Place {
            x: w % 256,
            y: w / 256 % 256,
        },
        5 => Word::Stage(w % 512),
        6..=15 => Word::Unused(kind),
        _ => Word::Unused(kind),
    }
}

// The grounds, by their numbers: those of document 01, then those that document 02 adds; `number_of` in specs/Ground.antt gives each its number.
#[derive(Clone, Copy, Debug, PartialEq, Eq)]
pub enum Ground {
    ListLength,
    WordKind,
    ExtraBit,
    RowOrder,
    StageCount,
    PlaceField,
    StageMask,
    OutOfRange,
    OutputLength,
    NoChain,
    FrameSize,
    FrameLength,
    CellValue,
    ImageLength,
    RowLength,
    NoneMeasured,
}

// A result, or the ground that refuses. What the number of a result means is said by each call.
pub type Answer = Result<u32, Ground>;

impl From<Ground> for u32 {
    ghost from_gives = { λ g n. n ≡ number_of g };

    // The number of a ground, as the document counts them.
    fn from(g: Ground) -> u32 {
        match g {
            Ground::ListLength => 1,
            Ground::WordKind => 2,
            Ground::ExtraBit => 3,
            Ground::RowOrder => 4,
            Ground::StageCount => 5,
            Ground::PlaceField => 6,
            Ground::StageMask => 7,
            Ground::OutOfRange => 8,
            Ground::OutputLength => 9,
            Ground::NoChain => 10,
            Ground::FrameSize => 11,
            Ground::FrameLength => 12,
            Ground::CellValue => 13,
            Ground::ImageLength => 14,
            Ground::RowLength => 15,
            Ground::NoneMeasured => 16,
        }
    }
}

// Refuses by the ground where its test holds. A call tries its grounds in their order, each with a `?`, so that the first that holds is answered.
pub fn tried(holds: bool, ground: Ground) -> Result<(), Ground>
    ensures { Tried holds ground result }
{
    if holds { Err(ground) } else { Ok(()) }
}

// One ground more behind an answer so far: its refusal where it is one; else the ground's where its test holds, and what was answered where it fails.
pub fn tried_behind<T: Drop>(
    so_far: Result<T, Ground>,
    holds: bool,
    ground: Ground,
) -> Result<T, Ground>
    ensures { TriedAfter so_far holds ground result }
{
    match so_far {
        Err(first) => Err(first),
        Ok(answer) => tried(holds, ground).map(|_| answer),
    }
}

// The reader of a list, which stands on the caller's words and makes no copy; and what it does, as functions on plain words and a position.
// Callers with a plain slice use `read_at`: their proofs need nothing of the struct.
#![tactic(auto)]

ghost use Rattle.std.specs.Prelude.{◌≡◌};
ghost use Rattle.readers.specs.Cursor.{item_at, left_at, after};

use words::Word;

// The caller's own words, borrowed, and a position in them. Nothing is copied: a reader is the slice's place and length, and a number.
#[derive(Clone, Copy)]
pub struct Reader<'a> {
    pub words: &'a [u32],
    pub at: usize,
}

// The word at a position, read by its kind; none at the end.
pub fn item_at(words: &[u32], at: usize) -> Option<Word>
    ensures { result ≡ item_at words.now at }
{
    words.get(at).map(|w| words::read(*w))
}

// How many words are left from a position on; none past the end.
pub fn left_at(words: &[u32], at: usize) -> usize
    ensures { result ≡ left_at words.now at }
{
    words.len().saturating_sub(at)
}

// The position n words on, or the end where so many are not left.
pub fn after_at(words: &[u32], at: usize, n: usize) -> usize
    ensures { result ≡ after words.now at n }
{
    at.saturating_add(n).min(words.len())
}

impl<'a> Reader<'a> {
    // A reader at the first of the words.
    pub fn new(words: &'a [u32]) -> Reader<'a>
        ensures { (result.words ≡ words.entry) × (result.at ≡ 0) }
    {
        Reader { words, at: 0 }
    }

    // The word where it stands, read by its kind; none at the end.
    pub fn item(self) -> Option<Word>
        ensures { result ≡ item_at self.entry.words.now self.entry.at }
    {
        item_at(self.words, self.at)
    }

    // The reader n words on, over the same words; at the end where so many are not left.
    pub fn moved(self, n: usize) -> Reader<'a>
        ensures { (result.words ≡ self.entry.words) × (result.at ≡ after self.entry.words.now self.entry.at n) }
    {
        Reader {
            words: self.words,
            at: after_at(self.words, self.at, n),
        }
    }

    // How many words are left.
    pub fn left(self) -> usize
        ensures { result ≡ left_at self.entry.words.now self.entry.at }
    {
        left_at(self.words, self.at)
    }
}

// The word at a position of a plain slice, by a reader that is moved there.
pub fn read_at(list: &[u32], at: usize) -> Option<Word>
    ensures { result ≡ item_at list.now at }
{
    Reader::new(list).moved(at).item()
}

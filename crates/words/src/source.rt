ghost use Rattle.std.specs.Prelude.{◌≡◌, ℕ, Option};
ghost use Rattle.std.specs.Option.{option_or};
ghost use Rattle.words.specs.Sources.{tape_word};

use octets::u32_at;

// A source of words. Asking changes nothing, and a place always has the same answer.
pub trait Source {
    // the word at each place, if there is one
    ghost words: { Self → ℕ → Option ℕ };

    fn word(&self, place: u64) -> Option<u32>
        ensures { result ≡ words self.now place };
}

// The words that the caller's bytes spell, four bytes each, the lowest first.
#[derive(Clone, Copy, PartialEq, Eq, Debug)]
pub struct Tape<'a> {
    pub bytes: &'a [u8],
}

impl Source for Tape<'_> {
    ghost words = { λ tape. tape_word tape.bytes.now };

    fn word(&self, place: u64) -> Option<u32> {
        word_in(self.bytes, place as usize)
    }
}

// The word at a place of the bytes, if all four of its bytes are there.
fn word_in(bytes: &[u8], place: usize) -> Option<u32>
    ensures { result ≡ tape_word bytes.now place }
{
    if place >= bytes.len() / 4 {
        return None;
    }
    Some(u32_at(bytes, 4 * place))
}

// Two sources: the first's words, and the second's where the first has none.
#[derive(Clone, Copy, Drop)]
pub struct Fallback<A, B> {
    pub first: A,
    pub second: B,
}

impl<A: Source, B: Source> Source for Fallback<A, B> {
    ghost words = { λ both n. option_or (A.Source.words both.first n) (B.Source.words both.second n) };

    fn word(&self, place: u64) -> Option<u32> {
        self.first.word(place).or_else(|| self.second.word(place))
    }
}

// Windows on a source of words. A call holds its source by value; a draw looks at 64 words at most.
ghost use Rattle.sampler.specs.Windows.{window_word};

use std::array;
use words::{Source, Tape};

// The 64 words of a source from a place on.
#[derive(Clone, Copy)]
pub struct Window {
    first: u64,
    words: [Option<u32>; 64],
}

impl Window {
    // The words of the tape from a place on.
    pub(crate) fn on(tape: Tape, first: u64) -> Window {
        let words = array::from_fn(|i| tape.word(first.checked_add(i as u64)?));
        Window { first, words }
    }
}

impl Source for Window {
    ghost words = { λ w. window_word w.first w.words };

    fn word(&self, place: u64) -> Option<u32> {
        let i = place.checked_sub(self.first)?;
        *self.words.get(i as usize)?
    }
}

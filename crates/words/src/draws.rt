ghost use Rattle.std.specs.Prelude.{◌≡◌, ◌+◌, ◌^◌, ◌<◌, ◌≤◌, IfOk};
ghost use Rattle.fault.specs.Refusals.{no_draw};
ghost use Rattle.std.specs.Option.{ok_or};
ghost use Rattle.words.specs.Draws.{addressable, draw_of, limit};

use crate::source::Source;
use crate::width::Width;
use fault::Fault;

// A draw below its width, and how many words it used.
#[derive(Clone, Copy, PartialEq, Eq, Debug)]
pub struct Drawn {
    pub value: u16,
    pub used: u8,
}

// How many words a draw looks at.
const MOST_WORDS: u8 = 64;

// Draws a value below the width from the words at the place and after it. A width of 1 needs no
// word. It refuses with no draw where it finds no word that it can take, and then only.
// Places end at 2^64 - 1, and a draw that comes past that end finds no word there; the clause
// `lawful` is for the places that a register can come to, far below.
pub fn draw<S: Source>(source: &S, width: Width, place: u64) -> Result<Drawn, Fault>
    ensures value { result ≡ ok_or (draw_of (addressable (S.words source.now)) width.value place) no_draw }
    ensures lawful { place ≤ 2 ^ 38 → result ≡ ok_or (draw_of (S.words source.now) width.value place) no_draw }
    ensures within { IfOk result (λ d. (d.value < width.value) × (d.used ≤ 64)) }
{
    look(source, width, place).ok_or(Fault::NO_DRAW)
}

fn look<S: Source>(source: &S, width: Width, place: u64) -> Option<Drawn>
    ensures { result ≡ draw_of (addressable (S.words source.now)) width.value place }
{
    if width.get() == 1 {
        return Some(Drawn { value: 0, used: 0 });
    }
    let limit = limit_of(width);
    for used in 0..MOST_WORDS {
        let word = word_after(source, place, used)?;
        if u64::from(word) < limit {
            return Some(Drawn {
                value: (word % u32::from(width.get())) as u16,
                used: used + 1,
            });
        }
    }
    None
}

// The largest multiple of the width up to 2^32. The words below it fall evenly on the draws.
fn limit_of(width: Width) -> u64
    ensures { result ≡ limit width.value }
{
    let width = u64::from(width.get());
    (1 << 32) / width * width
}

// The word so many places after the place.
fn word_after<S: Source>(source: &S, place: u64, after: u8) -> Option<u32>
    ensures { result ≡ addressable (S.words source.now) (place + after) }
{
    source.word(place.checked_add(u64::from(after))?)
}

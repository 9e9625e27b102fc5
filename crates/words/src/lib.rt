// Sources of 32-bit words, and draws from them that favour no value.
#![tactic(auto)]

mod draws;
mod laws;
mod source;
mod width;

pub use draws::{Drawn, draw};
pub use laws::{
    draws_are_even, examples_hold, first_is_drawn, limit_is_largest, small_is_drawn, words_are_even,
};
pub use source::{Fallback, Source, Tape};
pub use width::Width;

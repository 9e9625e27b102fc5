// Any sequence of calls on one register, and the law of every run.
#![tactic(auto)]

use pairing::Counts;
use plans::Opened;

mod calls;
pub mod laws;
mod runs;

pub use calls::{Call, Reply, Request};
pub use runs::{resume, run};

// What a call that was done answers.
#[derive(Clone, Copy, Debug, PartialEq, Eq)]
pub enum Answer {
    // the count of calls, the width, the draw, and the slot that was filled
    Stored(u32, u16, u16, Option<u16>),
    // the count of calls, and the slot that the pack had
    Taken(u32, Option<u16>),
    Reported(Counts),
    Opened(Opened),
}

// The pairing of stores with earlier takes, as published: which pack enters the sample, which leaves it.
#![tactic(auto)]

mod counters;
mod counts;
mod laws;

pub use counters::Counters;
pub use counts::{Counts, CountsError};
pub use laws::{
    calls_are_possible, example_holds, numbers_follow, reachable_is_lawful, slots_are_distinct,
    slots_follow,
};

// What a store does to the sample.
#[derive(Clone, Copy, PartialEq, Eq, Debug)]
pub enum Effect {
    // the pack goes into the next free slot
    Enters,
    // the pack takes the place of the one in this slot
    Replaces(u16),
    // the pack stays out of the sample
    StaysOut,
}

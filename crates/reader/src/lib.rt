// Reading a register through, block by block, on any device.
#![tactic(auto)]

mod rest;
mod slots;
mod through;
mod view;

use layout::PackSet;
use pairing::Counters;
pub use rest::{read_at_rest, read_header, require_blocks};
pub use slots::Sampled;
pub use through::read_through;
pub use view::View;

// What was read of a register.
#[derive(Clone, Copy, Debug, PartialEq, Eq)]
pub struct Found {
    pub counters: Counters,
    // the pack numbers in stock
    pub stock: PackSet,
    pub sampled: Sampled,
}

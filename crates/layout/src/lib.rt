// Where a register lies on its blocks, and how its blocks are read.
#![tactic(auto)]

mod head;
mod laws;
mod packs;
mod slots;

pub use head::{head_bytes, read_head};
pub use laws::{layout_reads_back, readings_are_exact};
pub use packs::PackSet;
pub use slots::{put_slot, read_unused, read_used, slot_bytes, slot_in};

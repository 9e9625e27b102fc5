// The journal of a register: changes to blocks that are committed together or not at all.
#![tactic(auto)]

mod headers;
mod laws;
mod runs;

pub use headers::{Header, Pending, PendingCall, free_header};
pub use laws::{headers_are_exact, headers_read_back, images_in_place, runs_as_told};
pub use runs::{commit, replay, write_all};

// A write of bytes to a block.
#[derive(Clone, Copy, Debug, PartialEq, Eq)]
pub struct Write {
    pub block: u16,
    pub bytes: [u8; 512],
}

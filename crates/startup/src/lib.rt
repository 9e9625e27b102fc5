// The calls that bring a register up: Make, which makes an empty one, and Open, which finishes what a power failure left.
#![tactic(auto)]

mod making;
mod opening;
mod start;

pub use making::make;
pub use opening::open;

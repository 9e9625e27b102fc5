// The calls on a register at rest: Store, Take, Report and Same, on any device and for any kind of item.
#![tactic(auto)]

mod commits;
mod comparing;
mod reporting;
mod resting;
mod stores;
mod takes;

pub use comparing::{SideFault, same};
pub use reporting::report;
pub use stores::{Stored, store};
pub use takes::take;

// The kinds of item that a register can hold: pack labels and ward boxes.
#![tactic(auto)]

mod examples;
mod forms;
mod item_kind;
mod kind;
mod label;
mod rules;
mod shown;
mod text;
mod ward_box;

pub use examples::{codes_differ, examples_hold};
pub use item_kind::{ItemKind, UnknownCode, UnknownWord};
pub use kind::Kind;
pub use label::Label;
pub use text::Text;
pub use ward_box::WardBox;

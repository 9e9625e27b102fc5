// What the sections of an item may hold.
mod sections;

pub(crate) use sections::{is_batch, is_code, is_expiry, is_ward};

// The bytes that a section is written in.
#[derive(Clone, Copy, PartialEq, Eq, Debug)]
pub enum Alphabet {
    Digits,
    // A-Z, a-z and 0-9
    Alphanumeric,
    // A-Z and 0-9
    UpperAlphanumeric,
}

// Items as text.
use crate::label::Label;
use crate::ward_box::WardBox;
use std::fmt;
use std::str::from_utf8;

// Prints code, batch and expiry, as `code 12345670, batch AB12, expiry 280229`, with `-` for none.
impl fmt::Display for Label {
    fn fmt<W: fmt::Write>(&self, f: &mut fmt::Formatter<W>) -> fmt::Result {
        let code = section(self.code());
        let batch = section(self.batch());
        let expiry = section(self.expiry());
        write!(f, "code {code}, batch {batch}, expiry {expiry}")
    }
}

// Prints ward and weight difference, as `ward A12, difference -250 g`.
impl fmt::Display for WardBox {
    fn fmt<W: fmt::Write>(&self, f: &mut fmt::Formatter<W>) -> fmt::Result {
        let ward = section(self.ward());
        match self.difference() {
            None => write!(f, "ward {ward}, difference -"),
            Some(grams) => write!(f, "ward {ward}, difference {grams} g"),
        }
    }
}

// A section as text, `-` where it is empty.
fn section(bytes: &[u8]) -> &str {
    if bytes.is_empty() {
        return "-";
    }
    from_utf8(bytes).unwrap_or("?")
}

// The scan field: the bytes scanned since the last confirm or cancel, in memory that the caller lends.
#![tactic(auto, unfolding(crate::specs::Field::zeros))]

ghost use Rattle.std.specs.Prelude.{◌≡◌, ℕ, ◌+◌, ◌≤◌, List, if◌then◌else◌, nat_lt, slice_set};
ghost use Rattle.intake.specs.Field.{Holds, Scanned, confirm_of, shown, zeros};
ghost use Rattle.intake.specs.declared.field.State.TheVariants.{Empty, Filling, Overlong};

use crate::Entry;
use fault::Fault;
use lines::Transaction;

// The length of the field.
pub(crate) const FIELD: usize = 100;

// The byte that confirms a line.
pub(crate) const CONFIRM: u8 = 10;

// The byte that cancels one.
pub(crate) const CANCEL: u8 = 24;

// What was scanned since the last confirm or cancel.
#[derive(Clone, Copy, PartialEq, Eq, Debug)]
pub(crate) enum State {
    Empty,
    // so many bytes, which the field shows
    Filling(usize),
    // more bytes than the field has
    Overlong,
}

// A guard over the lent bytes: they are zeros again after a confirm, after a cancel and when the guard is let go.
pub(crate) struct Field<'a> {
    pub(crate) bytes: &'a mut [u8; FIELD],
    pub(crate) state: State,
    ghost within: { shown state ≤ 100 },
}

impl Drop for Field<'_> {
    fn drop(self)
        ensures { self.exit.0.now ≡ zeros }
    {
        let Field { bytes, state: _ } = self;
        *bytes = [0; FIELD];
    }
}

// Each method says that the bytes stay the ones lent (`same`), which a caller with a `&mut Field` knows from nothing else.
impl Field<'_> {
    // Empties the field.
    pub(crate) fn clear(&mut self)
        ensures same { self.new.bytes.ghost_name ≡ self.old.bytes.ghost_name }
        ensures state { self.new.state ≡ Empty }
        ensures bytes { self.new.bytes.now ≡ zeros }
    {
        *self.bytes = [0; FIELD];
        self.state = State::Empty;
    }

    // Adds a byte behind the n that the field shows. Where no byte fits any more, the line is overlong.
    fn add(&mut self, n: usize, byte: u8)
        ensures same { self.new.bytes.ghost_name ≡ self.old.bytes.ghost_name }
        ensures state { self.new.state ≡ (if nat_lt n 100 then Filling (n + 1) else Overlong) }
        ensures bytes { self.new.bytes.now ≡ (if nat_lt n 100 then slice_set self.old.bytes.now n byte else self.old.bytes.now) }
    {
        if n < FIELD {
            self.bytes[n] = byte;
            self.state = State::Filling(n + 1);
        } else {
            self.state = State::Overlong;
        }
    }

    // Answers the entry of the line, unless the line is empty, and empties the field.
    fn confirm(&mut self) -> Option<Entry>
        ensures same { self.new.bytes.ghost_name ≡ self.old.bytes.ghost_name }
        ensures state { self.new.state ≡ Empty }
        ensures bytes { self.new.bytes.now ≡ zeros }
        ensures line { (line : List ℕ) → Holds line self.old.state self.old.bytes.now → result ≡ confirm_of line }
    {
        let entry = match self.state {
            State::Empty => None,
            State::Filling(n) => Some(Transaction::parse(&self.bytes[..n])),
            State::Overlong => Some(Err(Fault::LINE_TOO_LONG)),
        };
        self.clear();
        entry
    }

    // Scans one byte more. A confirm answers the line's entry, unless the line is empty.
    pub(crate) fn scan(&mut self, byte: u8) -> Option<Entry>
        ensures same { self.new.bytes.ghost_name ≡ self.old.bytes.ghost_name }
        ensures step { (line : List ℕ) → Holds line self.old.state self.old.bytes.now → Scanned line byte result self.new.state self.new.bytes.now }
    {
        match (self.state, byte) {
            // the field is zeros already
            (State::Empty, CONFIRM | CANCEL) => None,
            (_, CONFIRM) => self.confirm(),
            (_, CANCEL) => {
                self.clear();
                None
            }
            (State::Empty, _) => {
                self.add(0, byte);
                None
            }
            (State::Filling(n), _) => {
                self.add(n, byte);
                None
            }
            (State::Overlong, _) => None,
        }
    }
}

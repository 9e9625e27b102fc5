// A refusal in words: its number, layer, place and cause.
ghost use Rattle.std.specs.Prelude.{Some};
ghost use Rattle.fault.specs.Shown.{refusal_words, layer_words, place_words, damage_words, detail_words};
ghost use Rattle.fault.specs.Shown.{cause_words, device_words, journal_words, register_words, item_words, intake_words};

use crate::{
    Damage, DeviceCause, Fault, IntakeCause, ItemCause, JournalCause, Layer, Place, RegisterCause,
};
use std::fmt;

impl fmt::Display for Fault {
    ghost output = { λ f. Some (refusal_words f) };

    fn fmt<W: fmt::Write>(&self, f: &mut fmt::Formatter<W>) -> fmt::Result {
        let number = self.number();
        let layer = self.layer;
        let place = Where(self.place());
        let cause = Cause(self.layer);
        let detail = Detail(self.damage());
        write!(f, "refusal {number} ({layer}){place}: {cause}{detail}")
    }
}

// The place behind the layer, after a comma; nothing where there is no place.
#[derive(Clone, Copy)]
struct Where(Place);

impl fmt::Display for Where {
    ghost output = { λ w. Some (place_words w.0) };

    fn fmt<W: fmt::Write>(&self, f: &mut fmt::Formatter<W>) -> fmt::Result {
        match self.0 {
            Place::Whole => Ok(()),
            Place::Block(n) => write!(f, ", block {n}"),
            Place::Count(n) => write!(f, ", {n} blocks"),
            Place::Section(n) => write!(f, ", section {n}"),
            Place::Byte(n) => write!(f, ", byte {n}"),
        }
    }
}

// The damage behind the cause; nothing where there is none.
#[derive(Clone, Copy)]
struct Detail(Option<Damage>);

impl fmt::Display for Detail {
    ghost output = { λ d. Some (detail_words d.0) };

    fn fmt<W: fmt::Write>(&self, f: &mut fmt::Formatter<W>) -> fmt::Result {
        match self.0 {
            None => Ok(()),
            Some(damage) => {
                let number = damage.number();
                write!(f, ", cause {number}: {damage}")
            }
        }
    }
}

// The layer's name.
impl fmt::Display for Layer {
    ghost output = { λ l. Some (layer_words l) };

    fn fmt<W: fmt::Write>(&self, f: &mut fmt::Formatter<W>) -> fmt::Result {
        f.write_str(match self {
            Layer::Device(_, _) => "device",
            Layer::Journal(_, _) => "journal",
            Layer::Register(_, _) => "register",
            Layer::Item(_, _) => "item",
            Layer::Intake(_, _) => "intake",
        })
    }
}

// The layer's cause.
#[derive(Clone, Copy)]
struct Cause(Layer);

impl fmt::Display for Cause {
    ghost output = { λ c. Some (cause_words c.0) };

    fn fmt<W: fmt::Write>(&self, f: &mut fmt::Formatter<W>) -> fmt::Result {
        match self.0 {
            Layer::Device(_, cause) => write!(f, "{cause}"),
            Layer::Journal(_, cause) => write!(f, "{cause}"),
            Layer::Register(_, cause) => write!(f, "{cause}"),
            Layer::Item(_, cause) => write!(f, "{cause}"),
            Layer::Intake(_, cause) => write!(f, "{cause}"),
        }
    }
}

impl fmt::Display for DeviceCause {
    ghost output = { λ c. Some (device_words c) };

    fn fmt<W: fmt::Write>(&self, f: &mut fmt::Formatter<W>) -> fmt::Result {
        f.write_str(match self {
            DeviceCause::Offline => "the device is offline",
            DeviceCause::TooFewBlocks => "fewer than 78 blocks",
        })
    }
}

impl fmt::Display for JournalCause {
    ghost output = { λ c. Some (journal_words c) };

    fn fmt<W: fmt::Write>(&self, f: &mut fmt::Formatter<W>) -> fmt::Result {
        f.write_str(match self {
            JournalCause::NotRegister(_) => "not a register",
            JournalCause::NotFree => "the journal header is pending or unreadable",
        })
    }
}

impl fmt::Display for RegisterCause {
    ghost output = { λ c. Some (register_words c) };

    fn fmt<W: fmt::Write>(&self, f: &mut fmt::Formatter<W>) -> fmt::Result {
        f.write_str(match self {
            RegisterCause::NotRegister(_) => "not a register",
            RegisterCause::NumberTooLarge => "the pack number is above 32767",
            RegisterCause::InStock => "the pack is already in stock",
            RegisterCause::NotInStock => "the pack is not in stock",
            RegisterCause::LastCall => "no further call can be counted",
            RegisterCause::NoDraw => "the word source gives no draw",
            RegisterCause::BadCapacity => "the capacity is not 1 to 512",
            RegisterCause::TooShort => "the buffer or the table is too short",
        })
    }
}

impl fmt::Display for ItemCause {
    ghost output = { λ c. Some (item_words c) };

    fn fmt<W: fmt::Write>(&self, f: &mut fmt::Formatter<W>) -> fmt::Result {
        f.write_str(match self {
            ItemCause::Unlawful => "the item is unlawful",
        })
    }
}

impl fmt::Display for IntakeCause {
    ghost output = { λ c. Some (intake_words c) };

    fn fmt<W: fmt::Write>(&self, f: &mut fmt::Formatter<W>) -> fmt::Result {
        f.write_str(match self {
            IntakeCause::LineTooLong => "the line is longer than 100 bytes",
            IntakeCause::NotTransaction => "not a transaction",
        })
    }
}

impl fmt::Display for Damage {
    ghost output = { λ d. Some (damage_words d) };

    fn fmt<W: fmt::Write>(&self, f: &mut fmt::Formatter<W>) -> fmt::Result {
        f.write_str(match self {
            Damage::Unreadable => "unreadable",
            Damage::Mark => "a wrong mark or a byte that should be zero",
            Damage::Range => "a value out of its range or an unlawful form",
            Damage::Disagreement => "two parts that contradict each other",
            Damage::OtherKind => "another kind of item",
        })
    }
}

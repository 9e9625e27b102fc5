// The refusals of the sampler: every call that refuses answers one `Fault`, which says which layer
// refused, where, and why. docs/RULES.md has the table.
#![tactic(auto)]

ghost use Rattle.std.specs.Prelude.{◌≡◌, [], ◌∷◌};
ghost use Rattle.fault.specs.Refusals.{number_of, register_number, place_of, damage_of, damage_number};
ghost use Rattle.fault.specs.Refusals.{offline, too_few_blocks, not_register, not_free, number_too_large, in_stock, not_in_stock};
ghost use Rattle.fault.specs.Refusals.{unlawful, last_call, no_draw, bad_capacity, line_too_long, not_transaction, too_short};

use std::error::Error;

mod shown;

// Why a call was refused.
#[derive(Clone, Copy, PartialEq, Eq, Debug)]
pub struct Fault {
    pub layer: Layer,
}

// The layer that refused, with the place and the cause that it names.
#[derive(Clone, Copy, PartialEq, Eq, Debug)]
pub enum Layer {
    Device(Place, DeviceCause),
    Journal(Place, JournalCause),
    Register(Place, RegisterCause),
    Item(Place, ItemCause),
    Intake(Place, IntakeCause),
}

// Where a refusal points.
#[derive(Clone, Copy, PartialEq, Eq, Debug)]
pub enum Place {
    // no place
    Whole,
    // a block of the device
    Block(u16),
    // the device's count of blocks
    Count(u16),
    // a section of an item, counted from 1
    Section(u8),
    // a byte of a line, counted from 0
    Byte(u8),
}

#[derive(Clone, Copy, PartialEq, Eq, Debug)]
pub enum DeviceCause {
    Offline,
    TooFewBlocks,
}

#[derive(Clone, Copy, PartialEq, Eq, Debug)]
pub enum JournalCause {
    NotRegister(Damage),
    // the journal header is pending or unreadable
    NotFree,
}

#[derive(Clone, Copy, PartialEq, Eq, Debug)]
pub enum RegisterCause {
    NotRegister(Damage),
    NumberTooLarge,
    InStock,
    NotInStock,
    // the count of committed calls has reached its end
    LastCall,
    NoDraw,
    BadCapacity,
    // the caller's buffer or table is too short
    TooShort,
}

#[derive(Clone, Copy, PartialEq, Eq, Debug)]
pub enum ItemCause {
    Unlawful,
}

#[derive(Clone, Copy, PartialEq, Eq, Debug)]
pub enum IntakeCause {
    LineTooLong,
    NotTransaction,
}

// What keeps a block from being a register's.
#[derive(Clone, Copy, PartialEq, Eq, Debug)]
pub enum Damage {
    Unreadable,
    // a wrong mark, or a byte that should be zero
    Mark,
    // a value out of its range, or an unlawful form
    Range,
    // two parts that contradict each other
    Disagreement,
    OtherKind,
}

// Each refusal, by its number in the table.
impl Fault {
    // 1: the device is offline at this block, 0 for bringing it online
    pub fn offline(block: u16) -> Fault
        ensures { result ≡ offline block }
    {
        Fault {
            layer: Layer::Device(Place::Block(block), DeviceCause::Offline),
        }
    }

    // 2: the device has only so many blocks
    pub fn too_few_blocks(count: u16) -> Fault
        ensures { result ≡ too_few_blocks count }
    {
        Fault {
            layer: Layer::Device(Place::Count(count), DeviceCause::TooFewBlocks),
        }
    }

    // 3: not a register; blocks 1 to 5 are the journal's
    pub fn not_register(block: u16, damage: Damage) -> Fault
        ensures { result ≡ not_register block damage }
    {
        let place = Place::Block(block);
        let layer = if (1..=5).contains(&block) {
            Layer::Journal(place, JournalCause::NotRegister(damage))
        } else {
            Layer::Register(place, RegisterCause::NotRegister(damage))
        };
        Fault { layer }
    }

    // 4: the journal header is pending or unreadable
    pub const NOT_FREE: Fault = Fault {
        layer: Layer::Journal(Place::Block(1), JournalCause::NotFree),
    };

    // 5: a pack number above 32,767
    pub const NUMBER_TOO_LARGE: Fault = Fault {
        layer: Layer::Register(Place::Whole, RegisterCause::NumberTooLarge),
    };

    // 6: the pack is already in stock
    pub const IN_STOCK: Fault = Fault {
        layer: Layer::Register(Place::Whole, RegisterCause::InStock),
    };

    // 7: the pack is not in stock
    pub const NOT_IN_STOCK: Fault = Fault {
        layer: Layer::Register(Place::Whole, RegisterCause::NotInStock),
    };

    // 8: an item's first unlawful section, counted from 1
    pub fn unlawful(section: u8) -> Fault
        ensures { result ≡ unlawful section }
    {
        Fault {
            layer: Layer::Item(Place::Section(section), ItemCause::Unlawful),
        }
    }

    // 9: the count of committed calls has reached its end
    pub const LAST_CALL: Fault = Fault {
        layer: Layer::Register(Place::Whole, RegisterCause::LastCall),
    };

    // 10: the word source gives no draw
    pub const NO_DRAW: Fault = Fault {
        layer: Layer::Register(Place::Whole, RegisterCause::NoDraw),
    };

    // 11: a capacity that is not 1 to 512
    pub const BAD_CAPACITY: Fault = Fault {
        layer: Layer::Register(Place::Whole, RegisterCause::BadCapacity),
    };

    // 12: a line of more than 100 bytes
    pub const LINE_TOO_LONG: Fault = Fault {
        layer: Layer::Intake(Place::Byte(100), IntakeCause::LineTooLong),
    };

    // 13: a line that is no transaction, from this byte on
    pub fn not_transaction(at: u8) -> Fault
        ensures { result ≡ not_transaction at }
    {
        Fault {
            layer: Layer::Intake(Place::Byte(at), IntakeCause::NotTransaction),
        }
    }

    // 14: the caller's buffer or table is too short
    pub const TOO_SHORT: Fault = Fault {
        layer: Layer::Register(Place::Whole, RegisterCause::TooShort),
    };
}

// The refusals that are constants, in the order of the table.
pub fn constants() -> [Fault; 9]
    ensures { result ≡ not_free ∷ number_too_large ∷ in_stock ∷ not_in_stock ∷ last_call ∷ no_draw ∷ bad_capacity ∷ line_too_long ∷ too_short ∷ [] }
{
    [
        Fault::NOT_FREE,
        Fault::NUMBER_TOO_LARGE,
        Fault::IN_STOCK,
        Fault::NOT_IN_STOCK,
        Fault::LAST_CALL,
        Fault::NO_DRAW,
        Fault::BAD_CAPACITY,
        Fault::LINE_TOO_LONG,
        Fault::TOO_SHORT,
    ]
}

// What a refusal tells.
impl Fault {
    // The refusal's number.
    pub fn number(&self) -> u8
        ensures { result ≡ number_of self.now }
    {
        match self.layer {
            Layer::Device(_, DeviceCause::Offline) => 1,
            Layer::Device(_, DeviceCause::TooFewBlocks) => 2,
            Layer::Journal(_, JournalCause::NotRegister(_)) => 3,
            Layer::Journal(_, JournalCause::NotFree) => 4,
            Layer::Register(_, cause) => register_number(cause),
            Layer::Item(_, ItemCause::Unlawful) => 8,
            Layer::Intake(_, IntakeCause::LineTooLong) => 12,
            Layer::Intake(_, IntakeCause::NotTransaction) => 13,
        }
    }

    // Where it points.
    pub fn place(&self) -> Place
        ensures { result ≡ place_of self.now }
    {
        match self.layer {
            Layer::Device(place, _)
            | Layer::Journal(place, _)
            | Layer::Register(place, _)
            | Layer::Item(place, _)
            | Layer::Intake(place, _) => place,
        }
    }

    // The cause of a 3, which alone has one.
    pub fn damage(&self) -> Option<Damage>
        ensures { result ≡ damage_of self.now }
    {
        match self.layer {
            Layer::Journal(_, JournalCause::NotRegister(damage))
            | Layer::Register(_, RegisterCause::NotRegister(damage)) => Some(damage),
            _ => None,
        }
    }
}

fn register_number(cause: RegisterCause) -> u8
    ensures { result ≡ register_number cause }
{
    match cause {
        RegisterCause::NotRegister(_) => 3,
        RegisterCause::NumberTooLarge => 5,
        RegisterCause::InStock => 6,
        RegisterCause::NotInStock => 7,
        RegisterCause::LastCall => 9,
        RegisterCause::NoDraw => 10,
        RegisterCause::BadCapacity => 11,
        RegisterCause::TooShort => 14,
    }
}

impl Error for Fault {}

impl Damage {
    // The number of the cause.
    pub fn number(&self) -> u8
        ensures { result ≡ damage_number self.now }
    {
        match self {
            Damage::Unreadable => 1,
            Damage::Mark => 2,
            Damage::Range => 3,
            Damage::Disagreement => 4,
            Damage::OtherKind => 5,
        }
    }
}

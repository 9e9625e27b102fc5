ghost use Rattle.std.specs.Prelude.{◌≡◌, ◌/◌, Ok, nat_lt};
ghost use Rattle.fault.specs.Refusals.{number_too_large};
ghost use Rattle.journal.specs.Writes.{Runs, write_at};
ghost use Rattle.layout.specs.Layout.{head_of, stock_block};
ghost use Rattle.layout.specs.Reading.{in_set};
ghost use Rattle.plans.specs.Plans.{refused_if, slot_block_of, stock_block_of};
ghost use Rattle.register.specs.Planned.{writes_of};

use device::Device;
use fault::Fault;
use items::Kind;
use journal::{Pending, Write, commit};
use layout::{PackSet, head_bytes};
use pairing::Counters;

// The first block of the stock, and of the slots.
const STOCK: u16 = 6;

pub(crate) const SLOTS: u16 = 14;

// The block of the first after-image.
const FIRST_IMAGE: u16 = 2;

// What a call is about to commit: four blocks, and the journal header that names them.
#[derive(Clone, Copy)]
pub(crate) struct Commit {
    pub(crate) header: Pending,
    pub(crate) changes: [Write; 4],
}

impl Commit {
    // Makes its ten writes.
    pub(crate) fn perform<D: Device>(&self, device: &mut D) -> Result<(), Fault>
        ensures { Runs (writes_of self.now) (D.Device.meaning device.old) result (D.Device.meaning device.new) }
    {
        commit(device, FIRST_IMAGE, &self.header.to_bytes(), &self.changes)
    }
}

// The block of the stock that has the number.
pub(crate) fn stock_block(number: u16) -> u16
    ensures { result ≡ stock_block_of number }
{
    STOCK + number / 4096
}

// The block that has the slot.
pub(crate) fn slot_block(slot: u16) -> u16
    ensures { result ≡ slot_block_of slot }
{
    SLOTS + slot / 8
}

// The stock's block that has the number, with the stock after a call.
pub(crate) fn stock_change(after: &PackSet, number: u16) -> Write
    ensures { result ≡ write_at (stock_block_of number) (stock_block (in_set after.now.bytes) (number / 4096)) }
{
    Write {
        block: stock_block(number),
        bytes: after.block(number),
    }
}

// The head, with these counters.
pub(crate) fn head_change<K: Kind>(counters: Counters) -> Write
    ensures { result ≡ write_at 0 (head_of K.Kind.code counters.counts) }
{
    Write {
        block: 0,
        bytes: head_bytes(K::kind_code(), counters),
    }
}

// Refuses a number above 32,767. Each crate tests this bound for itself, for each has an answer for every u16: a type of pack
// numbers would ask more of callers.
pub(crate) fn check_number(number: u16) -> Result<(), Fault>
    ensures { result ≡ refused_if (nat_lt 32767 number) number_too_large (Ok tt) }
{
    if number > 32_767 {
        return Err(Fault::NUMBER_TOO_LARGE);
    }
    Ok(())
}

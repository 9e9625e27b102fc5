// The slots of a block.
ghost use Rattle.std.specs.Prelude.{◌≡◌, ◌*◌, ◌%◌, take, drop};
ghost use Rattle.pairing.specs.Reservoir.{Slot};
ghost use Rattle.layout.specs.Layout.{slot_bytes, with_slot};
ghost use Rattle.octets.specs.Numbers.{number_at};
ghost use Rattle.layout.specs.Reading.{unless_fault, in_set, used_fault, unused_fault};

use crate::packs::PackSet;
use fault::{Damage, Fault};
use items::Kind;
use octets::{all_zero, put, u16_at};

// The bytes of a slot in use.
pub fn slot_bytes<K: Kind>(number: u16, item: &K) -> [u8; 64]
    ensures { result ≡ slot_bytes K.Kind.form (record { number = number; item = item.now }) }
{
    let mut slot = [0; 64];
    put(&mut slot, 0, &number.to_le_bytes());
    put(&mut slot, 4, &item.to_form());
    slot
}

// The bytes of a slot, in the block that has it.
#[tactic(auto, using(words::proofs::Chunks::chunk_at))]
pub fn slot_in(block: &[u8; 512], slot: u16) -> [u8; 64]
    ensures { result ≡ take 64 (drop (64 * (slot % 8)) block.now) }
{
    let (slots, _) = block.as_chunks::<64>();
    slots[usize::from(slot % 8)]
}

// Puts the bytes of a slot into the block that has it; by offset, as `put_block` of the stock does.
pub fn put_slot(block: &mut [u8; 512], slot: u16, bytes: &[u8; 64])
    ensures { block.new ≡ with_slot block.old slot bytes.now }
{
    put(block, 64 * usize::from(slot % 8), bytes);
}

// The number in a slot in use, of this block, which is one of a set.
pub fn read_used<K: Kind>(block: u16, slot: &[u8; 64], set: &PackSet) -> Result<u16, Fault>
    ensures { result ≡ unless_fault (used_fault K.Kind.reading (in_set set.now.bytes) block slot.now) (number_at slot.now 0 2) }
{
    if !all_zero(&slot[2..4]) {
        return Err(Fault::not_register(block, Damage::Mark));
    }
    let number = u16_at(slot, 0);
    if number >= 32_768 {
        return Err(Fault::not_register(block, Damage::Range));
    }
    if !set.has(number) {
        return Err(Fault::not_register(block, Damage::Disagreement));
    }
    if K::from_form(&slot[4..]).is_none() {
        return Err(Fault::not_register(block, Damage::Range));
    }
    Ok(number)
}

// A slot that is not in use, of this block.
pub fn read_unused(block: u16, slot: &[u8; 64]) -> Result<(), Fault>
    ensures { result ≡ unless_fault (unused_fault block slot.now) tt }
{
    if all_zero(slot) {
        Ok(())
    } else {
        Err(Fault::not_register(block, Damage::Mark))
    }
}

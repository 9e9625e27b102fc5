ghost use Rattle.std.specs.Prelude.{◌≡◌, ℕ, ◌+◌, ◌*◌, ◌<◌, ◌≤◌, Some};
ghost use Rattle.device.specs.Disk.{Entry};
ghost use Rattle.layout.specs.Reading.{first_of, slot_fault, slot_in};
ghost use Rattle.reader.specs.Reads.{Gathered, SlotsRead};

use fault::Fault;
use items::Kind;
use layout::{PackSet, read_unused, read_used, slot_in};

// What was gathered of the slots in use.
#[derive(Clone, Copy, Debug, PartialEq, Eq)]
pub struct Sampled {
    // the numbers in stock that no slot has
    pub unsampled: PackSet,
    // the number of each slot, as far as the counters say; fixed memory, as there is no heap here
    pub numbers: [u16; 512],
}

impl Sampled {
    // Reads the eight slots of a block, the j-th that has slots; those below k are in use.
    pub(crate) fn read_block<K: Kind>(
        &mut self,
        j: u16,
        bytes: &[u8; 512],
        k: u16,
    ) -> Result<(), Fault>
        requires { j < 64 }
        ensures { (view : ℕ → Entry) → view (14 + j) ≡ Some bytes.now → Gathered view k (8 * j) self.old → SlotsRead view k (8 * j + 8) (first_of (slot_fault K.Kind.reading view k (14 + j)) (8 * j) 8) result self.new }
    {
        for i in 0..8 {
            let slot = 8 * j + i;
            self.read_slot::<K>(14 + j, slot, &slot_in(bytes, slot), k)?;
        }
        Ok(())
    }

    // Reads a slot of a block.
    fn read_slot<K: Kind>(
        &mut self,
        block: u16,
        slot: u16,
        bytes: &[u8; 64],
        k: u16,
    ) -> Result<(), Fault>
        requires { slot < 512 }
        ensures { (view : ℕ → Entry) → slot_in view slot ≡ bytes.now → Gathered view k slot self.old → SlotsRead view k (slot + 1) (slot_fault K.Kind.reading view k block slot) result self.new }
    {
        if slot >= k {
            return read_unused(block, bytes);
        }
        let number = read_used::<K>(block, bytes, &self.unsampled)?;
        self.unsampled.remove(number);
        self.numbers[usize::from(slot)] = number;
        Ok(())
    }
}

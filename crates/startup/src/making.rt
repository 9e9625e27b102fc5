ghost use Rattle.std.specs.Prelude.{◌≡◌};
ghost use Rattle.journal.specs.Writes.{Runs};
ghost use Rattle.plans.specs.Calls.{PerformsOnline};
ghost use Rattle.plans.specs.Plans.{make_refusal, make_plan, zero_block};
ghost use Rattle.startup.specs.Makes.{Empty, first_two, zero_writes, writes_with};

use crate::start::start;
use device::Device;
use fault::Fault;
use items::Kind;
use journal::{Write, free_header, write_all};
use layout::head_bytes;
use pairing::Counters;
use plans::BLOCKS;

// Makes an empty register: 75 writes, of which the last makes it one.
pub fn make<K: Kind, D: Device>(device: &mut D, capacity: u16) -> Result<(), Fault>
    ensures { PerformsOnline (make_refusal capacity (D.Device.meaning device.old)) (make_plan K.Kind.code capacity) (D.Device.meaning device.old) result (D.Device.meaning device.new) }
{
    let counters = no_packs(capacity)?;
    start(device)?;
    write_register(device, &head_bytes(K::kind_code(), counters))
}

// The counters of an empty register, for a capacity from 1 to 512.
fn no_packs(capacity: u16) -> Result<Counters, Fault>
    ensures { Empty capacity result }
{
    Counters::new(capacity).ok_or(Fault::BAD_CAPACITY)
}

// All the writes; the last is that of the head.
fn write_register<D: Device>(device: &mut D, head: &[u8; 512]) -> Result<(), Fault>
    ensures { Runs (writes_with head.now) (D.Device.meaning device.old) result (D.Device.meaning device.new) }
{
    write_all(device, &first_writes())?;
    write_zeros(device)?;
    let last = Write {
        block: 0,
        bytes: *head,
    };
    write_all(device, &[last])
}

// Zeros over an old head, so that no register is left, and a free header.
fn first_writes() -> [Write; 2]
    ensures { result ≡ first_two }
{
    let header = Write {
        block: 1,
        bytes: free_header(),
    };
    [zero_block(0), header]
}

// Zeros into the blocks of the stock and of the slots.
fn write_zeros<D: Device>(device: &mut D) -> Result<(), Fault>
    ensures { Runs (zero_writes 6 72) (D.Device.meaning device.old) result (D.Device.meaning device.new) }
{
    for block in 6..BLOCKS {
        write_all(device, &[zero_block(block)])?;
    }
    Ok(())
}

fn zero_block(block: u16) -> Write
    ensures { result ≡ zero_block block }
{
    Write {
        block,
        bytes: [0; 512],
    }
}

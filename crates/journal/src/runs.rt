// Runs of writes: a list of writes in order, up to the first that the device refuses.
ghost use Rattle.std.specs.Prelude.{◌≡◌, [], ◌∷◌};
ghost use Rattle.journal.specs.Writes.{Runs, write_at, next_block, header_write, images_from, commit_writes, replay_writes};

use crate::Write;
use crate::headers::free_header;
use device::Device;
use fault::Fault;

// Does the write.
fn write_one<D: Device>(device: &mut D, write: &Write) -> Result<(), Fault>
    ensures { Runs (write.now ∷ []) (D.Device.meaning device.old) result (D.Device.meaning device.new) }
{
    device
        .write(write.block, &write.bytes)
        .map_err(|_| Fault::offline(write.block))
}

// Does the writes in order, up to the first that is refused.
pub fn write_all<D: Device>(device: &mut D, writes: &[Write]) -> Result<(), Fault>
    ensures { Runs writes.now (D.Device.meaning device.old) result (D.Device.meaning device.new) }
{
    for write in writes {
        write_one(device, write)?;
    }
    Ok(())
}

// Writes the after-images of the changes: their bytes, from a block on. The block is counted here, for it
// stays at 65,535, where a range of blocks would end and leave changes out.
fn write_images<D: Device>(device: &mut D, first: u16, changes: &[Write]) -> Result<(), Fault>
    ensures { Runs (images_from first changes.now) (D.Device.meaning device.old) result (D.Device.meaning device.new) }
{
    let mut block = first;
    for change in changes {
        write_one(device, &image(change, block))?;
        block = next_block(block);
    }
    Ok(())
}

// The after-image of a change, at the block.
fn image(change: &Write, block: u16) -> Write
    ensures { result ≡ write_at block change.now.bytes }
{
    Write { block, ..*change }
}

// The next block, 65,535 at the end.
fn next_block(block: u16) -> u16
    ensures { result ≡ next_block block }
{
    block.saturating_add(1)
}

// The write of a journal header.
fn header_write(header: &[u8; 512]) -> Write
    ensures { result ≡ header_write header.now }
{
    Write {
        block: 1,
        bytes: *header,
    }
}

// Commits the changes: their after-images, the pending header, the changes, the free header.
pub fn commit<D: Device>(
    device: &mut D,
    first: u16,
    header: &[u8; 512],
    changes: &[Write],
) -> Result<(), Fault>
    ensures { Runs (commit_writes first header.now changes.now) (D.Device.meaning device.old) result (D.Device.meaning device.new) }
{
    write_images(device, first, changes)?;
    write_one(device, &header_write(header))?;
    replay(device, changes)
}

// Does changes that are pending: the changes, the free header.
pub fn replay<D: Device>(device: &mut D, changes: &[Write]) -> Result<(), Fault>
    ensures { Runs (replay_writes changes.now) (D.Device.meaning device.old) result (D.Device.meaning device.new) }
{
    write_all(device, changes)?;
    write_one(device, &header_write(&free_header()))
}

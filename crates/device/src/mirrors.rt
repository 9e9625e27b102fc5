// A device over two others.
ghost use Rattle.std.specs.Prelude.{◌≡◌};
ghost use Rattle.device.specs.Disk.{Writes, Brings};
ghost use Rattle.device.specs.MirrorDisk.{mirror_of, Copied, WroteBoth, BroughtBoth};

use super::{Device, DeviceError, Entry};

// Two devices that stand for one. Its count is the smaller, and it is online when both are. A block
// of it is the left side's, or the right side's where the left one is unreadable.
#[derive(Drop)]
pub struct Mirror<L, R> {
    pub left: L,
    pub right: R,
}

impl<L: Device, R: Device> Device for Mirror<L, R> {
    ghost meaning = { λ m. mirror_of (L.Device.meaning m.left) (R.Device.meaning m.right) };

    fn count(&self) -> u16 {
        self.left.count().min(self.right.count())
    }

    fn read(&self, block: u16) -> Result<Entry, DeviceError> {
        if block >= <Mirror<_, _> as Device>::count(self) {
            return Err(DeviceError::Outside);
        }
        let left = self.left.read(block)?;
        let right = self.right.read(block)?;
        Ok(left.or(right))
    }

    // The old left bytes go to the right side first, so that a lost left write leaves the mirror old or
    // new.
    fn write(&mut self, block: u16, bytes: &[u8; 512]) -> Result<(), DeviceError>
        ensures writes { Writes (mirror_of (L.Device.meaning self.old.left) (R.Device.meaning self.old.right)) block bytes.now result (mirror_of (L.Device.meaning self.new.left) (R.Device.meaning self.new.right)) }
        ensures sides { WroteBoth (L.Device.meaning self.old.left) (R.Device.meaning self.old.right) block bytes.now result (L.Device.meaning self.new.left) (R.Device.meaning self.new.right) }
    {
        if block >= <Mirror<_, _> as Device>::count(self) {
            return Err(DeviceError::Outside);
        }
        let old = self.left.read(block)?;
        let _ = self.right.read(block)?;
        copy(&mut self.right, block, old)?;
        self.left.write(block, bytes)?;
        self.right.write(block, bytes)
    }

    // Both sides are tried, whatever the left one answers.
    fn bring_online(&mut self) -> Result<(), DeviceError>
        ensures brings { Brings (mirror_of (L.Device.meaning self.old.left) (R.Device.meaning self.old.right)) result (mirror_of (L.Device.meaning self.new.left) (R.Device.meaning self.new.right)) }
        ensures sides { BroughtBoth (L.Device.meaning self.old.left) (R.Device.meaning self.old.right) result (L.Device.meaning self.new.left) (R.Device.meaning self.new.right) }
    {
        let left = self.left.bring_online();
        let right = self.right.bring_online();
        left.and(right)
    }
}

// Writes an old entry, if it is readable.
fn copy<D: Device>(device: &mut D, block: u16, old: Entry) -> Result<(), DeviceError>
    ensures { Copied (D.Device.meaning device.old) block old result (D.Device.meaning device.new) }
{
    match old {
        Some(bytes) => device.write(block, &bytes),
        None => Ok(()),
    }
}

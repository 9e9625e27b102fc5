// Block devices that can lose power: what a device is, a device in memory, a mirror of two devices,
// and a device that fails.
#![tactic(auto)]

ghost use Rattle.std.specs.Prelude.{◌≡◌, min};
ghost use Rattle.device.specs.Disk.{Disk, Writes, Brings, blocks, reading};

mod failures;
mod images;
mod mirrors;

pub use failures::Failing;
pub use images::Image;
pub use mirrors::Mirror;

// What a block holds: its bytes, or nothing that can be read.
pub type Entry = Option<[u8; 512]>;

// Why a device refuses.
#[derive(Clone, Copy, Debug, PartialEq, Eq)]
pub enum DeviceError {
    // the block is at or above the count
    Outside,
    // the device is offline, or has just gone offline
    Offline,
}

// How a write that was lost leaves its block.
#[derive(Clone, Copy, Debug, PartialEq, Eq)]
pub enum Remains {
    Old,
    New,
    Unreadable,
}

// A device of blocks of 512 bytes, numbered from 0. It is online or offline; only a write or an
// attempt to bring it online can take it offline.
pub trait Device {
    // the entry of each block, and whether the device is online
    ghost meaning: { Self → Disk };

    // The count of blocks. As a u16 it is at most 65,535, and no call changes it.
    fn count(&self) -> u16
        ensures { result ≡ blocks (meaning self.now) };

    // The entry of the block.
    fn read(&self, block: u16) -> Result<Entry, DeviceError>
        ensures { result ≡ reading (meaning self.now) block };

    // Puts the bytes into the block. Where the write is lost, the device goes offline, and the block
    // is left old, new or unreadable.
    fn write(&mut self, block: u16, bytes: &[u8; 512]) -> Result<(), DeviceError>
        ensures { Writes (meaning self.old) block bytes.now result (meaning self.new) };

    // Tries to bring the device online. It may fail on an online device too, which then is offline.
    fn bring_online(&mut self) -> Result<(), DeviceError>
        ensures { Brings (meaning self.old) result (meaning self.new) };
}

// A device that is lent.
impl<D: Device> Device for &mut D {
    ghost meaning = { λ d. D.Device.meaning d.now };

    fn count(&self) -> u16 {
        (**self).count()
    }

    fn read(&self, block: u16) -> Result<Entry, DeviceError> {
        (**self).read(block)
    }

    fn write(&mut self, block: u16, bytes: &[u8; 512]) -> Result<(), DeviceError> {
        (**self).write(block, bytes)
    }

    fn bring_online(&mut self) -> Result<(), DeviceError> {
        (**self).bring_online()
    }
}

// A number of blocks, cut at 65,535.
fn capped(n: usize) -> u16
    ensures { result ≡ min n 65535 }
{
    u16::try_from(n).unwrap_or(u16::MAX)
}

// A device in memory. The clauses `lender` say that the image goes on in the caller's own bytes.
ghost use Rattle.std.specs.Prelude.{◌≡◌, ◌+◌, ◌*◌, ◌≤◌, length, Ok};
ghost use Rattle.device.specs.Disk.{Writes, Brings};
ghost use Rattle.device.specs.ImageDisk.{disk_in, block_in, with_block, written_in, answer_in};

use super::{Device, DeviceError, Entry, capped};

// An image in the caller's bytes: block b is the 512 bytes from 512 b on. It has as many blocks as
// fit, at most 65,535; the bytes behind them are never touched. It never goes offline.
#[derive(Drop)]
pub struct Image<'a> {
    bytes: &'a mut [u8],
}

impl<'a> Image<'a> {
    // The image in these bytes, which change as the image does.
    pub fn new(bytes: &'a mut [u8]) -> Image<'a>
        ensures bytes { result.bytes.now ≡ bytes.old }
        ensures lender { result.bytes.ghost_name ≡ bytes.entry.ghost_name }
    {
        Image { bytes }
    }
}

impl Device for Image<'_> {
    ghost meaning = { λ i. disk_in i.bytes.now };

    fn count(&self) -> u16 {
        capped(self.bytes.len() / 512)
    }

    fn read(&self, block: u16) -> Result<Entry, DeviceError> {
        if block < <Image<'_> as Device>::count(self) {
            Ok(Some(block_in(self.bytes, block)))
        } else {
            Err(DeviceError::Outside)
        }
    }

    fn write(&mut self, block: u16, bytes: &[u8; 512]) -> Result<(), DeviceError>
        ensures writes { Writes (disk_in self.old.bytes.now) block bytes.now result (disk_in self.new.bytes.now) }
        ensures answer { result ≡ answer_in self.old.bytes.now block }
        ensures bytes { self.new.bytes.now ≡ written_in self.old.bytes.now block bytes.now }
        ensures lender { self.new.bytes.ghost_name ≡ self.old.bytes.ghost_name }
    {
        if block >= <Image<'_> as Device>::count(self) {
            return Err(DeviceError::Outside);
        }
        put_block(self.bytes, block, bytes);
        Ok(())
    }

    fn bring_online(&mut self) -> Result<(), DeviceError>
        ensures brings { Brings (disk_in self.old.bytes.now) result (disk_in self.new.bytes.now) }
        ensures answer { result ≡ Ok tt }
        ensures bytes { self.new.bytes.now ≡ self.old.bytes.now }
        ensures lender { self.new.bytes.ghost_name ≡ self.old.bytes.ghost_name }
    {
        Ok(()) // it is online
    }
}

// A copy of the block. By `as_chunks` it is no plainer: the write below keeps these bounds, as a proof does not know what `as_chunks_mut` leaves.
fn block_in(bytes: &[u8], block: u16) -> [u8; 512]
    requires { 512 * block + 512 ≤ length bytes.now }
    ensures { result ≡ block_in bytes.now block }
{
    let from = 512 * block as usize;
    let mut out = [0; 512];
    out.copy_from_slice(&bytes[from..from + 512]);
    out
}

// Puts new bytes into the block.
fn put_block(bytes: &mut [u8], block: u16, new: &[u8; 512])
    requires { 512 * block + 512 ≤ length bytes.old }
    ensures { bytes.new ≡ with_block bytes.old block new.now }
{
    let at = 512 * block as usize;
    bytes[at..at + 512].copy_from_slice(new);
}

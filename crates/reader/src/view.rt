ghost use Rattle.std.specs.Prelude.{◌≡◌, ◌+◌, [], min};
ghost use Rattle.fault.specs.declared.Damage.TheVariants as damage;
ghost use Rattle.layout.specs.Reading.{unless_fault, unless, readable, bytes_of};
ghost use Rattle.plans.specs.Views.{place_from};
ghost use Rattle.reader.specs.Reads.{BlockRead};

use device::{Device, Entry};
use fault::{Damage, Fault};

// The blocks of a device, of which some, the targets, are taken from their after-images.
#[derive(Drop)]
pub struct View<'a, D> {
    pub device: &'a D,
    // the block of the first after-image
    pub first: u16,
    pub targets: &'a [u16],
}

impl<'a, D: Device> View<'a, D> {
    // The device as it is, with no after-images.
    pub fn plain(device: &'a D) -> View<'a, D>
        ensures device { result.device.now ≡ device.now }
        ensures own { (result.first ≡ 0) × (result.targets.now ≡ []) }
    {
        View {
            device,
            first: 0,
            targets: &[],
        }
    }

    // The bytes of a block. A fault names the block itself, not its after-image.
    pub fn bytes(&self, block: u16) -> Result<[u8; 512], Fault>
        ensures { BlockRead (D.Device.meaning self.now.device.now) self.now.first self.now.targets.now block result }
    {
        let entry = self
            .device
            .read(self.place(block))
            .map_err(|_| Fault::offline(block))?;
        whole(entry, block)
    }

    // Where the block is read: at the last after-image that is its own, or at itself.
    fn place(&self, block: u16) -> u16
        ensures { result ≡ place_from block block self.now.first self.now.targets.now }
    {
        match self.targets.iter().rposition(|target| *target == block) {
            Some(i) => self.image(i),
            None => block,
        }
    }

    // The block of the i-th after-image, 65,535 at the end.
    fn image(&self, i: usize) -> u16
        ensures first { i ≡ 0 → result ≡ self.now.first }
        ensures later { result ≡ min (self.now.first + i) 65535 }
    {
        self.first
            .saturating_add(u16::try_from(i).unwrap_or(u16::MAX))
    }
}

// The bytes of the block with this entry. By a match, not `ok_or`: only in its arm is it known that they are 512 bytes.
fn whole(entry: Entry, block: u16) -> Result<[u8; 512], Fault>
    ensures { result ≡ unless_fault (unless (readable entry) block damage.Unreadable) (bytes_of entry) }
{
    match entry {
        Some(bytes) => Ok(bytes),
        None => Err(Fault::not_register(block, Damage::Unreadable)),
    }
}

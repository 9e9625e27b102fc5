ghost use Rattle.std.specs.Prelude.{◌≡◌};
ghost use Rattle.layout.specs.Reading.{unless_fault};
ghost use Rattle.plans.specs.Plans.{at_rest, too_small};
ghost use Rattle.reader.specs.Reads.{HeaderRead, ReadAs};

use crate::Found;
use crate::through::read_through;
use crate::view::View;
use device::Device;
use fault::Fault;
use items::Kind;
use journal::Header;
use plans::BLOCKS;

// Refuses a device that is too small for a register.
pub fn require_blocks<D: Device>(device: &D) -> Result<(), Fault>
    ensures { result ≡ unless_fault (too_small (D.Device.meaning device.now)) tt }
{
    let count = device.count();
    if count < BLOCKS {
        return Err(Fault::too_few_blocks(count));
    }
    Ok(())
}

// Reads the journal header.
pub fn read_header<D: Device>(device: &D) -> Result<Header, Fault>
    ensures { HeaderRead (D.Device.meaning device.now) result }
{
    let entry = device.read(1).map_err(|_| Fault::offline(1))?;
    Ok(Header::read(&entry))
}

// Reads a register at rest: refused where the device is too small or offline, or the journal header is not free.
pub fn read_at_rest<K: Kind, D: Device>(device: &D) -> Result<Found, Fault>
    ensures { ReadAs (at_rest K.Kind.code K.Kind.reading (D.Device.meaning device.now)) result }
{
    require_blocks(device)?;
    read_header(device)?.require_free()?;
    read_through::<K, D>(&View::plain(device))
}

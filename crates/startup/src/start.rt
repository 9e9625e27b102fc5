// How a call begins: with a device that is large enough, and online.
ghost use Rattle.startup.specs.Starts.{Came, Started};

use device::Device;
use fault::Fault;
use reader::require_blocks;

// Refuses a device that is too small, and brings any other online.
pub(crate) fn start<D: Device>(device: &mut D) -> Result<(), Fault>
    ensures { Started (D.Device.meaning device.old) result (D.Device.meaning device.new) }
{
    require_blocks(device)?;
    bring_online(device)
}

// Brings the device online.
fn bring_online<D: Device>(device: &mut D) -> Result<(), Fault>
    ensures { Came (D.Device.meaning device.old) result (D.Device.meaning device.new) }
{
    device.bring_online().map_err(|_| Fault::offline(0))
}

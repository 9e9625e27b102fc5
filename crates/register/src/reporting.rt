// Report: the slots of a register, shown in a page.
ghost use Rattle.std.specs.Prelude.{◌≡◌, ◌+◌, ◌<◌, ◌≤◌, length, Ok, nat_lt};
ghost use Rattle.fault.specs.Refusals.{too_short};
ghost use Rattle.layout.specs.Layout.{Laid, content};
ghost use Rattle.plans.specs.Plans.{refused_if, reported};
ghost use Rattle.register.specs.Reports.{Shown};
ghost use Rattle.register.specs.Kept.{kept_by};

use crate::commits::SLOTS;
use crate::resting::Resting;
use device::Device;
use fault::Fault;
use items::Kind;
use octets::put;
use pairing::Counts;

// The bytes of all slots.
const PAGE: usize = 32_768;

// Refuses a page that has no room for all slots.
fn check_page(page: &[u8]) -> Result<(), Fault>
    ensures { result ≡ refused_if (nat_lt (length page.now) 32768) too_short (Ok tt) }
{
    if page.len() < PAGE {
        return Err(Fault::TOO_SHORT);
    }
    Ok(())
}

impl<K: Kind, D: Device> Resting<'_, K, D> {
    // The bytes of the j-th block of slots.
    fn read_slots(&self, j: u16) -> Result<[u8; 512], Fault>
        requires { j < 64 }
        ensures { Laid (14 + j) → result ≡ Ok (content K.Kind.code K.Kind.form (kept_by K.Kind D.Device self.now) (14 + j)) }
    {
        self.block(SLOTS + j)
    }

    // Fills the page with the blocks of the slots, one behind the other.
    fn fill(&self, page: &mut [u8]) -> Result<(), Fault>
        requires { 32768 ≤ length page.old }
        ensures { (result ≡ Ok tt) × (page.new ≡ reported K.Kind.code K.Kind.form (kept_by K.Kind D.Device self.now) page.old) }
    {
        for j in 0..64 {
            let block = self.read_slots(j)?;
            put(page, 512 * usize::from(j), &block);
        }
        Ok(())
    }
}

// Fills the first 32,768 bytes of the page with the slots and zeros, and answers the counters.
pub fn report<K: Kind, D: Device>(device: &D, page: &mut [u8]) -> Result<Counts, Fault>
    ensures { Shown K.Kind.code K.Kind.form K.Kind.reading (D.Device.meaning device.now) page.old result page.new }
{
    check_page(page)?;
    let register = Resting::<K, D>::read(device)?;
    register.fill(page)?;
    Ok(register.found.counters.get())
}

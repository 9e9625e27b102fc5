// A device that fails.
ghost use Rattle.std.specs.Prelude.{◌≡◌, ◌-◌, true, is_ok, if◌then◌else◌};
ghost use Rattle.device.specs.Disk.{Writes, Brings, left_by};
ghost use Rattle.device.specs.FailingDisk.{failing_disk, Tried};

use super::{Device, DeviceError, Entry, Remains, capped};

// A device in the caller's entries that fails as told: it does some writes, and loses every later one.
#[derive(Drop)]
pub struct Failing<'a> {
    pub entries: &'a mut [Entry],
    pub online: bool,
    // how many writes are still done
    pub good: u16,
    // how a lost write leaves its block
    pub leaves: Remains,
    // whether it can be brought online
    pub recovers: bool,
}

impl<'a> Failing<'a> {
    // An online device in these entries, which can be brought online again.
    pub fn new(entries: &'a mut [Entry], good: u16, leaves: Remains) -> Failing<'a>
        ensures entries { result.entries.now ≡ entries.old }
        ensures lender { result.entries.ghost_name ≡ entries.entry.ghost_name }
        ensures online { result.online ≡ true }
        ensures good { result.good ≡ good }
        ensures leaves { result.leaves ≡ leaves }
        ensures recovers { result.recovers ≡ true }
    {
        Failing {
            entries,
            online: true,
            good,
            leaves,
            recovers: true,
        }
    }
}

impl Device for Failing<'_> {
    ghost meaning = { λ f. failing_disk f.entries.now f.online };

    fn count(&self) -> u16 {
        capped(self.entries.len())
    }

    fn read(&self, block: u16) -> Result<Entry, DeviceError> {
        if block >= <Failing<'_> as Device>::count(self) {
            return Err(DeviceError::Outside);
        }
        if !self.online {
            return Err(DeviceError::Offline);
        }
        let index = block as usize;
        Ok(self.entries[index])
    }

    fn write(&mut self, block: u16, bytes: &[u8; 512]) -> Result<(), DeviceError>
        ensures writes { Writes (failing_disk self.old.entries.now self.old.online) block bytes.now result (failing_disk self.new.entries.now self.new.online) }
        ensures event { Tried self.old.good self.old.leaves (failing_disk self.old.entries.now self.old.online) block bytes.now result (failing_disk self.new.entries.now self.new.online) }
        ensures good { self.new.good ≡ (if is_ok result then self.old.good - 1 else self.old.good) }
        ensures told { (self.new.leaves ≡ self.old.leaves) × (self.new.recovers ≡ self.old.recovers) }
    {
        if block >= <Failing<'_> as Device>::count(self) {
            return Err(DeviceError::Outside);
        }
        if !self.online {
            return Err(DeviceError::Offline);
        }
        let at = block as usize;
        if self.good > 0 {
            self.good -= 1;
            self.entries[at] = Some(*bytes);
            return Ok(());
        }
        self.entries[at] = left_by(self.leaves, self.entries[at], bytes);
        self.online = false;
        Err(DeviceError::Offline)
    }

    fn bring_online(&mut self) -> Result<(), DeviceError>
        ensures brings { Brings (failing_disk self.old.entries.now self.old.online) result (failing_disk self.new.entries.now self.new.online) }
        ensures answer { is_ok result ≡ self.old.recovers }
        ensures good { self.new.good ≡ self.old.good }
        ensures told { (self.new.leaves ≡ self.old.leaves) × (self.new.recovers ≡ self.old.recovers) }
    {
        self.online = self.recovers;
        if self.recovers {
            Ok(())
        } else {
            Err(DeviceError::Offline)
        }
    }
}

// What a lost write leaves.
fn left_by(leaves: Remains, old: Entry, new: &[u8; 512]) -> Entry
    ensures { result ≡ left_by leaves old new.now }
{
    match leaves {
        Remains::Old => old,
        Remains::New => Some(*new),
        Remains::Unreadable => None,
    }
}

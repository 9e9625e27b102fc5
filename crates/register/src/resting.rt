// A register at rest, as a call finds it.
ghost use Rattle.std.specs.Prelude.{◌≡◌, ◌==◌, true, Ok, Err, MatchResult, is_ok};
ghost use Rattle.fault.specs.Refusals.{last_call};
ghost use Rattle.layout.specs.Laws.{Storable};
ghost use Rattle.layout.specs.Layout.{Laid, content};
ghost use Rattle.plans.specs.Plans.{at_rest, refused_if};
ghost use Rattle.reader.specs.Reads.{Finds};
ghost use Rattle.register.specs.Rested.{kept_on};

use device::Device;
use fault::Fault;
use items::Kind;
use reader::{Found, View, read_at_rest};
use std::marker::PhantomData;

// A register at rest, read through.
#[derive(Drop)]
pub(crate) struct Resting<'a, K: Kind, D: Device> {
    device: &'a D,
    pub(crate) found: Found,
    kind: PhantomData<K>,
    ghost rests: { is_ok (at_rest K.Kind.code K.Kind.reading (D.Device.meaning device.now)) ≡ true },
    ghost storable: { Storable (kept_on K.Kind (D.Device.meaning device.now)) },
    ghost finds: { Finds found (kept_on K.Kind (D.Device.meaning device.now)) },
}

impl<'a, K: Kind, D: Device> Resting<'a, K, D> {
    // Reads a register that is at rest.
    pub(crate) fn read(device: &'a D) -> Result<Resting<'a, K, D>, Fault>
        ensures { MatchResult result (λ r. r.device.now ≡ device.now) (λ f. at_rest K.Kind.code K.Kind.reading (D.Device.meaning device.now) ≡ Err f) }
    {
        let found = read_at_rest::<K, D>(device)?;
        Ok(Resting {
            device,
            found,
            kind: PhantomData,
        })
    }

    // Refuses a call after the last.
    pub(crate) fn require_next(&self) -> Result<(), Fault>
        ensures { result ≡ refused_if (self.now.found.counters.counts.calls == 4294967295) last_call (Ok tt) }
    {
        if self.found.counters.get().calls == u32::MAX {
            return Err(Fault::LAST_CALL);
        }
        Ok(())
    }

    // The bytes of a block.
    pub(crate) fn block(&self, block: u16) -> Result<[u8; 512], Fault>
        ensures { Laid block → result ≡ Ok (content K.Kind.code K.Kind.form (kept_on K.Kind (D.Device.meaning self.now.device.now)) block) }
    {
        View::plain(self.device).bytes(block)
    }
}

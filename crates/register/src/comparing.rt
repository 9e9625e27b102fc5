ghost use Rattle.std.specs.Prelude.{Decides};
ghost use Rattle.plans.specs.Plans.{at_rest};
ghost use Rattle.register.specs.Same.{Compared, SameFound};

use device::Device;
use fault::Fault;
use items::Kind;
use reader::{Found, read_at_rest};

// A refusal of the left or the right of the two registers that are compared.
#[derive(Clone, Copy, Debug, PartialEq, Eq)]
pub enum SideFault {
    Left(Fault),
    Right(Fault),
}

// Whether two registers have the same packs in stock and the same packs in the sample.
pub fn same<K: Kind, A: Device, B: Device>(left: &A, right: &B) -> Result<bool, SideFault>
    ensures { Compared (at_rest K.Kind.code K.Kind.reading (A.Device.meaning left.now)) (at_rest K.Kind.code K.Kind.reading (B.Device.meaning right.now)) result }
{
    let left = read_at_rest::<K, A>(left).map_err(SideFault::Left)?;
    let right = read_at_rest::<K, B>(right).map_err(SideFault::Right)?;
    Ok(same_packs(&left, &right))
}

// Whether the same was read: equal sampled numbers are equal unsampled ones, as all are in stock.
fn same_packs(left: &Found, right: &Found) -> bool
    ensures { Decides result (SameFound left.now right.now) }
{
    left.stock.same(&right.stock) && left.sampled.unsampled.same(&right.sampled.unsampled)
}

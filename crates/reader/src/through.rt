ghost use Rattle.layout.specs.Reading.{decode};
ghost use Rattle.reader.specs.Reads.{Steady, StockRead, SampleRead, ReadAs};
ghost use Rattle.reader.specs.Viewed.{of_view, shown_by};

use crate::Found;
use crate::slots::Sampled;
use crate::view::View;
use device::Device;
use fault::{Damage, Fault};
use items::Kind;
use layout::{PackSet, read_head};

// Reads a register through: the head, the stock, then the slots.
pub fn read_through<K: Kind, D: Device>(view: &View<D>) -> Result<Found, Fault>
    ensures { of_view Steady D.Device view.now → ReadAs (decode K.Kind.code K.Kind.reading (shown_by D.Device view.now)) result }
{
    let counters = read_head(K::kind_code(), &view.bytes(0)?)?;
    let counts = counters.get();
    let stock = read_stock(view)?;
    if stock.count() != u32::from(counts.size) {
        return Err(Fault::not_register(6, Damage::Disagreement));
    }
    let sampled = read_slots::<K, D>(view, counts.sampled, stock)?;
    Ok(Found {
        counters,
        stock,
        sampled,
    })
}

// The stock: blocks 6 to 13.
fn read_stock<D: Device>(view: &View<D>) -> Result<PackSet, Fault>
    ensures { of_view StockRead D.Device view.now result }
{
    let mut stock = PackSet::empty();
    for j in 0..8 {
        stock.put_block(j, &view.bytes(6 + j)?);
    }
    Ok(stock)
}

// The slots: blocks 14 to 77.
fn read_slots<K: Kind, D: Device>(view: &View<D>, k: u16, stock: PackSet) -> Result<Sampled, Fault>
    ensures { of_view (SampleRead K.Kind.reading) D.Device view.now k stock result }
{
    let mut sampled = Sampled {
        unsampled: stock,
        numbers: [0; 512],
    };
    for j in 0..64 {
        sampled.read_block::<K>(j, &view.bytes(14 + j)?, k)?;
    }
    Ok(sampled)
}

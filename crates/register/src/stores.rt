// Storing a pack.
ghost use Rattle.std.specs.Prelude.{◌≡◌, ◌/◌, ◌<◌, ◌≤◌, [], ◌∷◌, Ok, Err, MatchResult, ◌==◌};
ghost use Rattle.fault.specs.Refusals.{last_call, in_stock};
ghost use Rattle.journal.specs.Writes.{write_at};
ghost use Rattle.journal.specs.declared.headers.PendingCall.TheVariants as pending;
ghost use Rattle.layout.specs.Layout.{Laid, head_of, stock_block, content};
ghost use Rattle.layout.specs.Reading.{in_set};
ghost use Rattle.pairing.specs.Reservoir.{with};
ghost use Rattle.pairing.specs.Steps.{width_at, filled_at, CanCall};
ghost use Rattle.plans.specs.Calls.{Performs};
ghost use Rattle.plans.specs.Plans.{store_plan, store_block, stock_block_of, refused_if};
ghost use Rattle.register.specs.Planned.{PlannedAs};
ghost use Rattle.register.specs.Kept.{kept_by};
ghost use Rattle.register.specs.Stores.{slotted, draw_at, Stepped, Accepts, drawn_plan};

use crate::commits::{
    Commit, SLOTS, check_number, head_change, slot_block, stock_block, stock_change,
};
use crate::resting::Resting;
use device::Device;
use fault::Fault;
use items::Kind;
use journal::{Pending, PendingCall, Write};
use layout::{PackSet, put_slot, slot_bytes};
use pairing::Counters;
use words::{Drawn, Source, Width, draw};

// The block of a slot; the first block of slots where there is none.
fn store_block(slot: Option<u16>) -> u16
    ensures { result ≡ store_block slot }
{
    slot.map_or(SLOTS, slot_block)
}

// The block with new bytes in the slot, if there is one.
fn with_slot(block: [u8; 512], slot: Option<u16>, new: &[u8; 64]) -> [u8; 512]
    ensures { result ≡ slotted block slot new.now }
{
    let mut changed = block;
    if let Some(i) = slot {
        put_slot(&mut changed, i, new);
    }
    changed
}

// The count of calls after a store, the width, the draw, and the slot that it filled. Store answers a tuple, as the
// rules of the call say.
pub type Stored = (u32, u16, u16, Option<u16>);

// A store's step: its draw, and the counters before and after it.
#[derive(Clone, Copy)]
struct Step {
    before: Counters,
    width: Width,
    drawn: Drawn,
    after: Counters,
}

impl Step {
    // The next step from these counters.
    fn next<S: Source>(before: Counters, source: &S) -> Result<Step, Fault>
        ensures { MatchResult result (λ s. Stepped (S.Source.words source.now) before.counts s.before.counts s.after.counts s.width.value s.drawn) (λ f. (CanCall before.counts → width_at before.counts ≤ 32768 → draw_at (S.Source.words source.now) before.counts ≡ Err f)) }
    {
        // not reached: a number is left for the pack
        let width = before.width().ok_or(Fault::NO_DRAW)?;
        let drawn = draw(source, width, before.get().words)?;
        // not reached: the draw is below the width
        let after = before.after_store(drawn).ok_or(Fault::NO_DRAW)?;
        Ok(Step {
            before,
            width,
            drawn,
            after,
        })
    }

    // The slot that it fills.
    fn slot(&self) -> Option<u16>
        ensures { result ≡ filled_at self.now.before.counts self.now.drawn.value }
    {
        self.before.filled(self.drawn.value)
    }

    // What the store answers.
    fn answer(&self) -> Stored
        ensures { result ≡ (self.now.after.counts.calls, self.now.width.value, self.now.drawn.value, filled_at self.now.before.counts self.now.drawn.value) }
    {
        (
            self.after.get().calls,
            self.width.get(),
            self.drawn.value,
            self.slot(),
        )
    }

    // The journal header, where the slot lies in this block.
    fn header(&self, number: u16, block: u16) -> Pending
        ensures { result ≡ record { call = pending.Store self.now.width.value self.now.drawn.value self.now.drawn.used; number = number; calls = self.now.after.counts.calls; words = self.now.before.counts.words; blocks = block ∷ block ∷ stock_block_of number ∷ 0 ∷ [] } }
    {
        Pending {
            call: PendingCall::Store {
                width: self.width.get(),
                draw: self.drawn.value,
                used: self.drawn.used,
            },
            number,
            calls: u64::from(self.after.get().calls),
            words: self.before.get().words,
            blocks: [block, block, stock_block(number), 0],
        }
    }

    // The four changes: the slot's block twice, the stock and the head.
    fn changes<K: Kind>(&self, slots: Write, stock: &PackSet, number: u16) -> [Write; 4]
        ensures { number < 32768 → result ≡ slots ∷ slots ∷ write_at (stock_block_of number) (stock_block (with (in_set stock.now.bytes) number) (number / 4096)) ∷ write_at 0 (head_of K.Kind.code self.now.after.counts) ∷ [] }
    {
        let mut after = *stock;
        after.insert(number);
        [
            slots,
            slots,
            stock_change(&after, number),
            head_change::<K>(self.after),
        ]
    }
}

impl<K: Kind, D: Device> Resting<'_, K, D> {
    // The slot's block, with new bytes in the slot.
    fn slot_change(&self, slot: Option<u16>, new: &[u8; 64]) -> Result<Write, Fault>
        ensures { Laid (store_block slot) → result ≡ Ok (write_at (store_block slot) (slotted (content K.Kind.code K.Kind.form (kept_by K.Kind D.Device self.now) (store_block slot)) slot new.now)) }
    {
        let block = store_block(slot);
        let bytes = with_slot(self.block(block)?, slot, new);
        Ok(Write { block, bytes })
    }

    // Draws, and prepares the commit of a store that can be made.
    fn plan_store<S: Source>(
        &self,
        number: u16,
        item: &K,
        source: &S,
    ) -> Result<(Stored, Commit), Fault>
        ensures { Accepts (kept_by K.Kind D.Device self.now) number → PlannedAs (drawn_plan K.Kind.code K.Kind.form (kept_by K.Kind D.Device self.now) number item.now (S.Source.words source.now)) result }
    {
        let step = Step::next(self.found.counters, source)?;
        let slots = self.slot_change(step.slot(), &slot_bytes(number, item))?;
        let commit = Commit {
            header: step.header(number, slots.block),
            changes: step.changes::<K>(slots, &self.found.stock, number),
        };
        Ok((step.answer(), commit))
    }

    // Refuses a call after the last, then a number that is in stock.
    fn check_store(&self, number: u16) -> Result<(), Fault>
        ensures { result ≡ refused_if (self.now.found.counters.counts.calls == 4294967295) last_call (refused_if (in_set self.now.found.stock.bytes number) in_stock (Ok tt)) }
    {
        self.require_next()?;
        if self.found.stock.has(number) {
            return Err(Fault::IN_STOCK);
        }
        Ok(())
    }
}

// Reads the register, and prepares the commit of a store.
fn prepare_store<K: Kind, S: Source, D: Device>(
    device: &D,
    number: u16,
    item: &K,
    source: &S,
) -> Result<(Stored, Commit), Fault>
    ensures { PlannedAs (store_plan K.Kind.code K.Kind.form K.Kind.reading (D.Device.meaning device.now) number item.now (S.Source.words source.now)) result }
{
    check_number(number)?;
    let register = Resting::<K, D>::read(device)?;
    register.check_store(number)?;
    register.plan_store(number, item, source)
}

// Stores a pack: its number and its item. It answers the count of calls, the width, the draw, and
// the slot that was filled.
pub fn store<K: Kind, S: Source, D: Device>(
    device: &mut D,
    number: u16,
    item: &K,
    source: &S,
) -> Result<Stored, Fault>
    ensures { Performs (store_plan K.Kind.code K.Kind.form K.Kind.reading (D.Device.meaning device.old) number item.now (S.Source.words source.now)) (D.Device.meaning device.old) result (D.Device.meaning device.new) }
{
    let (answer, commit) = prepare_store(device, number, item, source)?;
    commit.perform(device)?;
    Ok(answer)
}

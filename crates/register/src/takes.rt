// Take: a pack leaves the stock, and the sample if it is there.
ghost use Rattle.std.specs.Prelude.{◌≡◌, ℕ, ◌+◌, ◌-◌, ◌<◌, ◌≤◌, ◌==◌, length, take, position, is_some, IfSome, Some, None, Ok};
ghost use Rattle.std.specs.Option.{SomeIff, option_map};
ghost use Rattle.octets.specs.Zeros.{zeros};
ghost use Rattle.pairing.specs.Reservoir.{taken, slot_of};
ghost use Rattle.pairing.specs.Rules.{CanTake, after_take};
ghost use Rattle.journal.specs.Writes.{write_at};
ghost use Rattle.journal.specs.declared.headers.PendingCall.TheVariants as pending;
ghost use Rattle.layout.specs.Layout.{content};
ghost use Rattle.plans.specs.Calls.{Performs};
ghost use Rattle.plans.specs.Plans.{slot_block_of, changes_to, taking, take_plan};
ghost use Rattle.register.specs.Planned.{PlannedAs};
ghost use Rattle.register.specs.Kept.{kept_by};
ghost use Rattle.register.specs.Takes.{changed_in, slot_targets, take_checks, Frees, Allowed};

use crate::commits::{Commit, SLOTS, check_number, head_change, slot_block, stock_change};
use crate::resting::Resting;
use device::Device;
use fault::Fault;
use items::Kind;
use journal::{Pending, PendingCall, Write};
use layout::{put_slot, slot_in};
use pairing::Counters;

// Where a number first stands.
fn place_of(numbers: &[u16], number: u16) -> Option<usize>
    ensures place { result ≡ position (λ n. n == number) numbers.now }
    ensures inside { IfSome result (λ i. i < length numbers.now) }
{
    numbers.iter().position(|n| *n == number)
}

// The j-th block of slots with new bytes in a slot, if that is one of its eight. A store knows its slot's block, and has no
// such test.
fn change_slot(block: [u8; 512], j: u16, slot: u16, bytes: &[u8; 64]) -> [u8; 512]
    ensures { result ≡ changed_in block j slot bytes.now }
{
    let mut changed = block;
    if slot / 8 == j {
        put_slot(&mut changed, slot, bytes);
    }
    changed
}

// A slot that a take frees: the last slot moves into it.
#[derive(Clone, Copy)]
struct Freed {
    slot: u16,
    last: u16,
    // the bytes of the last slot
    bytes: [u8; 64],
}

impl Freed {
    // The j-th block of slots after the move.
    fn apply(&self, block: [u8; 512], j: u16) -> [u8; 512]
        ensures { result ≡ changed_in (changed_in block j self.now.slot self.now.bytes) j self.now.last (zeros 64) }
    {
        let moved = change_slot(block, j, self.slot, &self.bytes);
        change_slot(moved, j, self.last, &[0; 64])
    }

    // The change of the block that has the slot `at`.
    fn change<K: Kind, D: Device>(&self, register: &Resting<K, D>, at: u16) -> Result<Write, Fault>
        ensures { (number : ℕ) → Frees K.Kind.form (kept_by K.Kind D.Device register.now) number self.now.slot self.now.last self.now.bytes → at < 512 → result ≡ Ok (write_at (slot_block_of at) (content K.Kind.code K.Kind.form (taken (kept_by K.Kind D.Device register.now) number) (slot_block_of at))) }
    {
        let block = slot_block(at);
        let bytes = self.apply(register.block(block)?, at / 8);
        Ok(Write { block, bytes })
    }
}

// The counters after a take, by the slot that it frees.
fn after_take(counters: Counters, slot: Option<u16>) -> Option<Counters>
    ensures { SomeIff (option_map (λ c. c.counts) result) (CanTake (is_some slot) counters.counts) (after_take (is_some slot) counters.counts) }
{
    counters.after_take(slot.is_some())
}

// The journal header of a take, by the counters before it.
fn header(counters: Counters, number: u16, blocks: [u16; 4]) -> Pending
    ensures { result ≡ record { call = pending.Take; number = number; calls = counters.counts.calls + 1; words = counters.counts.words; blocks = blocks } }
{
    let counts = counters.get();
    Pending {
        call: PendingCall::Take,
        number,
        calls: u64::from(counts.calls) + 1,
        words: counts.words,
        blocks,
    }
}

impl<K: Kind, D: Device> Resting<'_, K, D> {
    // The slot that the pack with this number has.
    fn slot(&self, number: u16) -> Option<u16>
        ensures { result ≡ slot_of (kept_by K.Kind D.Device self.now).slots number }
    {
        let slot = place_of(self.numbers(), number)?;
        Some(slot as u16)
    }

    // The numbers of the slots in use.
    fn numbers(&self) -> &[u16]
        ensures all { result.now ≡ take self.now.found.counters.counts.sampled self.now.found.sampled.numbers }
        ensures few { length result.now ≤ 512 }
    {
        &self.found.sampled.numbers[..usize::from(self.found.counters.get().sampled)]
    }

    // The changes of the slots where a slot is freed: of its block, and of the last slot's.
    fn freed_changes(&self, slot: u16, last: u16) -> Result<[Write; 2], Fault>
        ensures { (number : ℕ) → slot_of (kept_by K.Kind D.Device self.now).slots number ≡ Some slot → length (kept_by K.Kind D.Device self.now).slots ≡ last + 1 → result ≡ Ok (changes_to K.Kind.code K.Kind.form (taken (kept_by K.Kind D.Device self.now) number) (slot_targets (Some slot) last)) }
    {
        let bytes = slot_in(&self.block(slot_block(last))?, last);
        let freed = Freed { slot, last, bytes };
        Ok([freed.change(self, slot)?, freed.change(self, last)?])
    }

    // The changes where no slot is freed: the first block of slots, twice, as it is.
    fn kept_changes(&self) -> Result<[Write; 2], Fault>
        ensures { (number last : ℕ) → slot_of (kept_by K.Kind D.Device self.now).slots number ≡ None → result ≡ Ok (changes_to K.Kind.code K.Kind.form (taken (kept_by K.Kind D.Device self.now) number) (slot_targets None last)) }
    {
        let kept = Write {
            block: SLOTS,
            bytes: self.block(SLOTS)?,
        };
        Ok([kept, kept])
    }

    // The changes of the slots, by the slot that is freed.
    fn slot_changes(&self, slot: Option<u16>) -> Result<[Write; 2], Fault>
        ensures { (number : ℕ) → slot ≡ slot_of (kept_by K.Kind D.Device self.now).slots number → result ≡ Ok (changes_to K.Kind.code K.Kind.form (taken (kept_by K.Kind D.Device self.now) number) (slot_targets slot (length (kept_by K.Kind D.Device self.now).slots - 1))) }
    {
        let Some(slot) = slot else {
            return self.kept_changes();
        };
        // not reached: an empty sample has no slot
        let last = self.found.counters.last().ok_or(Fault::NOT_IN_STOCK)?;
        self.freed_changes(slot, last)
    }

    // The answer and the commit of a take that can be made.
    fn plan_take(&self, number: u16) -> Result<((u32, Option<u16>), Commit), Fault>
        ensures { Allowed (kept_by K.Kind D.Device self.now) number → PlannedAs (Ok (taking K.Kind.code K.Kind.form (kept_by K.Kind D.Device self.now) number)) result }
    {
        let counters = self.found.counters;
        let slot = self.slot(number);
        // not reached: the take can be made
        let after = after_take(counters, slot).ok_or(Fault::LAST_CALL)?;
        let [first, second] = self.slot_changes(slot)?;
        let mut stock = self.found.stock;
        stock.remove(number);
        let stock = stock_change(&stock, number);
        let head = head_change::<K>(after);
        let blocks = [first.block, second.block, stock.block, head.block];
        let commit = Commit {
            header: header(counters, number, blocks),
            changes: [first, second, stock, head],
        };
        Ok(((after.get().calls, slot), commit))
    }

    // Refuses a take after the last call, and of a pack that is not in stock.
    fn check_take(&self, number: u16) -> Result<(), Fault>
        ensures { result ≡ take_checks self.now.found number }
    {
        self.require_next()?;
        if !self.found.stock.has(number) {
            return Err(Fault::NOT_IN_STOCK);
        }
        Ok(())
    }
}

// What a take is to answer and to commit.
fn prepare_take<K: Kind, D: Device>(
    device: &D,
    number: u16,
) -> Result<((u32, Option<u16>), Commit), Fault>
    ensures { PlannedAs (take_plan K.Kind.code K.Kind.form K.Kind.reading (D.Device.meaning device.now) number) result }
{
    check_number(number)?;
    let register = Resting::<K, D>::read(device)?;
    register.check_take(number)?;
    register.plan_take(number)
}

// Takes the pack with this number: answers the count of calls, and the slot that the pack had.
pub fn take<K: Kind, D: Device>(device: &mut D, number: u16) -> Result<(u32, Option<u16>), Fault>
    ensures { Performs (take_plan K.Kind.code K.Kind.form K.Kind.reading (D.Device.meaning device.old) number) (D.Device.meaning device.old) result (D.Device.meaning device.new) }
{
    let (answer, commit) = prepare_take::<K, D>(device, number)?;
    commit.perform(device)?;
    Ok(answer)
}

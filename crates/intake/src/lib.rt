// The scan intake: from the bytes of a scan to the transactions of its confirmed lines.
#![tactic(auto)]

ghost use Rattle.std.specs.Prelude.{◌≡◌, ℕ, ◌≤◌, not, ◌&&◌, ◌||◌, List, [], ◌++◌, length, drop, ◌==◌};
ghost use Rattle.intake.specs.Cancelled.{struck};
ghost use Rattle.intake.specs.Field.{Holds, zeros};
ghost use Rattle.intake.specs.Intake.{answer, filled, overfull, refused, wiped};
ghost use Rattle.intake.specs.Lines.{confirmed, entries};

mod field;

use fault::Fault;
use field::{CANCEL, CONFIRM, FIELD, Field, State};
use lines::Transaction;

// What a confirmed line comes to.
pub type Entry = Result<Transaction, Fault>;

// How many lines of a scan are confirmed and not empty: so many entries `intake` fills.
pub fn count_lines(input: &[u8]) -> usize
    ensures { result ≡ length (confirmed input.now) }
{
    // a flag and a counter: the proof of `array_windows`, `filter` and `count` did not close
    let mut lines = 0;
    let mut filling = false;
    for byte in input {
        if ends_line(filling, *byte) {
            lines += 1;
        }
        filling = is_added(*byte);
    }
    lines
}

// Whether the byte ends a line: it confirms a field that is filling.
fn ends_line(filling: bool, byte: u8) -> bool
    ensures { result ≡ (filling && byte == 10) }
{
    filling && byte == CONFIRM
}

// Whether the byte is added to the field.
fn is_added(byte: u8) -> bool
    ensures { result ≡ not (byte == 10 || byte == 24) }
{
    byte != CONFIRM && byte != CANCEL
}

// Fills the table with the entries of the lines, and answers how many they are.
fn fill(input: &[u8], field: &mut Field, table: &mut [Entry]) -> usize
    requires { (Holds [] field.old.state field.old.bytes.now) × (length (entries input.now) ≤ length table.old) }
    ensures same { field.new.bytes.ghost_name ≡ field.old.bytes.ghost_name }
    ensures count { result ≡ length (entries input.now) }
    ensures entries { table.new ≡ entries input.now ++ drop (length (entries input.now)) table.old }
{
    // by index: once the borrow of an `iter_mut` in a `zip` is over, a proof knows how many entries there are and not which
    let mut count = 0;
    for byte in input {
        if let Some(entry) = field.scan(*byte) {
            table[count] = entry;
            count += 1;
        }
    }
    count
}

// Scans over the field's bytes, which are zeros again on every way out.
#[tactic(auto, unfolding(crate::specs::Field::zeros))]
fn scan_over(input: &[u8], bytes: &mut [u8; FIELD], table: &mut [Entry]) -> Result<usize, Fault>
    ensures answer { result ≡ answer (overfull input.now table.old) input.now }
    ensures filled { table.new ≡ filled (overfull input.now table.old) input.now table.old }
    ensures wiped { bytes.new ≡ zeros }
{
    let mut field = Field {
        bytes,
        state: State::Empty,
    };
    field.clear();
    if table.len() < count_lines(input) {
        return Err(Fault::TOO_SHORT);
    }
    Ok(fill(input, &mut field, table))
}

// Fills the table, from its front, with what each confirmed line of the scan comes to, and answers how many
// they are. The first 100 bytes of the buffer are the scan field.
#[tactic(auto, using(crate::proofs::Strikes::entries_struck))]
pub fn intake(input: &[u8], buffer: &mut [u8], table: &mut [Entry]) -> Result<usize, Fault>
    ensures answer { result ≡ answer (refused input.now buffer.old table.old) input.now }
    ensures filled { table.new ≡ filled (refused input.now buffer.old table.old) input.now table.old }
    ensures wiped { buffer.new ≡ wiped buffer.old }
    ensures cancelled { (other : List ℕ) → struck other ≡ struck input.now → entries other ≡ entries input.now }
{
    let bytes = buffer.first_chunk_mut::<FIELD>().ok_or(Fault::TOO_SHORT)?;
    scan_over(input, bytes, table)
}

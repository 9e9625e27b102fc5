// The head, in block 0.
ghost use Rattle.std.specs.Prelude.{◌≡◌, ◌^◌, ◌<◌, take};
ghost use Rattle.std.specs.Option.{SomeIff};
ghost use Rattle.std.specs.Result.{result_map_both};
ghost use Rattle.std.specs.Str.{bytes_eq};
ghost use Rattle.layout.specs.Layout.{mark, head_of};
ghost use Rattle.layout.specs.Reading.{marked, known_kind, counts_in, counts_fault, head_fault, unless_fault};

use fault::{Damage, Fault};
use items::ItemKind;
use octets::{all_zero, put, u16_at, u64_at};
use pairing::{Counters, Counts, CountsError};

// The bytes of a head, for a kind's code. Here as below that is a byte: every byte has an answer, and an `ItemKind` would ask more of callers.
pub fn head_bytes(code: u8, counters: Counters) -> [u8; 512]
    ensures { result ≡ head_of code counters.counts }
{
    let n = counters.get();
    let mut head = [0; 512];
    put(&mut head, 0, b"RPR1");
    put(&mut head, 4, &[code]);
    put(&mut head, 8, &n.capacity.to_le_bytes());
    put(&mut head, 10, &n.sampled.to_le_bytes());
    put(&mut head, 12, &n.size.to_le_bytes());
    put(&mut head, 14, &n.c1.to_le_bytes());
    put(&mut head, 16, &n.c2.to_le_bytes());
    put(&mut head, 24, &u64::from(n.calls).to_le_bytes());
    put(&mut head, 32, &n.words.to_le_bytes());
    head
}

// The counters in a head, for a caller with the kind of this code.
pub fn read_head(code: u8, bytes: &[u8; 512]) -> Result<Counters, Fault>
    ensures { result_map_both (λ c. c.counts) (λ f. f) result ≡ unless_fault (head_fault code bytes.now) (counts_in bytes.now) }
{
    if !is_marked(bytes) {
        return Err(Fault::not_register(0, Damage::Mark));
    }
    let kind = bytes[4];
    if !is_kind(kind) {
        return Err(Fault::not_register(0, Damage::Range));
    }
    let counts = counts_in(bytes).ok_or(Fault::not_register(0, Damage::Range))?;
    let counters = counters_of(counts)?;
    if kind != code {
        return Err(Fault::not_register(0, Damage::OtherKind));
    }
    Ok(counters)
}

// Whether the mark stands there, and zeros stand where nothing else does.
fn is_marked(bytes: &[u8; 512]) -> bool
    ensures { result ≡ marked bytes.now }
{
    has_mark(bytes) && all_zero(&bytes[5..8]) && all_zero(&bytes[18..24]) && all_zero(&bytes[40..])
}

fn has_mark(bytes: &[u8]) -> bool
    ensures { result ≡ bytes_eq (take 4 bytes.now) mark }
{
    bytes.starts_with(b"RPR1")
}

fn is_kind(code: u8) -> bool
    ensures { result ≡ known_kind code }
{
    ItemKind::try_from(code).is_ok()
}

// The numbers in a head, where the count of calls is one that can be.
fn counts_in(bytes: &[u8; 512]) -> Option<Counts>
    ensures { SomeIff result ((counts_in bytes.now).calls < 2 ^ 32) (counts_in bytes.now) }
{
    let calls = u32::try_from(u64_at(bytes, 24)).ok()?;
    Some(Counts {
        capacity: u16_at(bytes, 8),
        size: u16_at(bytes, 12),
        sampled: u16_at(bytes, 10),
        c1: u16_at(bytes, 14),
        c2: u16_at(bytes, 16),
        calls,
        words: u64_at(bytes, 32),
    })
}

// The counters with these numbers, or the refusal of a head that has them.
fn counters_of(counts: Counts) -> Result<Counters, Fault>
    ensures { result_map_both (λ c. c.counts) (λ f. f) result ≡ unless_fault (counts_fault counts) counts }
{
    Counters::try_from(counts).map_err(|error| match error {
        CountsError::OutOfRange => Fault::not_register(0, Damage::Range),
        CountsError::Unbalanced => Fault::not_register(0, Damage::Disagreement),
    })
}

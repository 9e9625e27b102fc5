// Bytes: zeros, little-endian numbers, and bytes written over others.
#![tactic(auto)]

ghost use Rattle.std.specs.Prelude.{◌≡◌, ℕ, ◌<◌, drop, length, slice_index};
ghost use Rattle.std.specs.Str.{bytes_eq};
ghost use Rattle.octets.specs.Edits.{placed};
ghost use Rattle.octets.specs.Numbers.{number_at};
ghost use Rattle.octets.specs.Zeros.{every, blank};

use std::array;

// Whether all bytes are zero.
pub fn all_zero(bytes: &[u8]) -> bool
    ensures { result ≡ every blank bytes.now }
{
    bytes.iter().all(|byte| *byte == 0)
}

// Whether both are the same.
pub fn same(left: &[u8], right: &[u8]) -> bool
    ensures { result ≡ bytes_eq left.now right.now }
{
    left == right
}

// Writes new bytes from a place on; none of them where there is no room for all.
pub fn put(bytes: &mut [u8], at: usize, new: &[u8])
    ensures { bytes.new ≡ placed bytes.old at new.now }
{
    if at <= bytes.len() && new.len() <= bytes.len() - at {
        bytes[at..at + new.len()].copy_from_slice(new);
    }
}

// The number in two bytes from a place on. Here as below, a byte past the end counts as zero.
#[tactic(auto, using(crate::proofs::Numbers::number_2))]
pub fn u16_at(bytes: &[u8], at: usize) -> u16
    ensures { result ≡ number_at bytes.now at 2 }
{
    u16::from_le_bytes(array_at(bytes, at))
}

// The number in four bytes.
#[tactic(auto, using(crate::proofs::Numbers::number_4))]
pub fn u32_at(bytes: &[u8], at: usize) -> u32
    ensures { result ≡ number_at bytes.now at 4 }
{
    u32::from_le_bytes(array_at(bytes, at))
}

// The number in eight bytes.
#[tactic(auto, using(crate::proofs::Numbers::number_8))]
pub fn u64_at(bytes: &[u8], at: usize) -> u64
    ensures { result ≡ number_at bytes.now at 8 }
{
    u64::from_le_bytes(array_at(bytes, at))
}

// So many bytes from a place on.
pub fn array_at<const N: usize>(bytes: &[u8], at: usize) -> [u8; N]
    ensures long { length result ≡ N }
    ensures each { (k : ℕ) → k < N → slice_index result k ≡ slice_index (drop at bytes.now) k }
{
    let tail = from(bytes, at);
    array::from_fn(|i| byte(tail, i))
}

// The bytes from a place on.
fn from(bytes: &[u8], at: usize) -> &[u8]
    ensures { result.now ≡ drop at bytes.now }
{
    bytes.get(at..).unwrap_or(&[])
}

// The byte at a place.
fn byte(bytes: &[u8], at: usize) -> u8
    ensures { result ≡ slice_index bytes.now at }
{
    bytes.get(at).copied().unwrap_or(0)
}

ghost use Rattle.std.specs.Prelude.{◌≡◌, ℕ, ◌/◌, ◌<◌, ◌≤◌, false, Decides};
ghost use Rattle.pairing.specs.Reservoir.{with, without};
ghost use Rattle.layout.specs.Edits.{with_part};
ghost use Rattle.layout.specs.Layout.{stock_block};
ghost use Rattle.layout.specs.Reading.{in_set, ones_in};

use octets::put;

// A set of pack numbers, one bit each: number p is bit p mod 8 of byte p / 8.
#[derive(Clone, Copy, PartialEq, Eq, Debug)]
pub struct PackSet {
    bytes: [u8; 4096],
}

impl PackSet {
    // The set of no number.
    pub fn empty() -> PackSet
        ensures { (p : ℕ) → in_set result.bytes p ≡ false }
    {
        PackSet { bytes: [0; 4096] }
    }

    // Puts a block in place of the j-th of the eight that spell the set. By its place in bytes, since
    // the contract of `as_chunks_mut` says nothing of what is written.
    pub fn put_block(&mut self, j: u16, block: &[u8; 512])
        ensures { self.new.bytes ≡ with_part self.old.bytes j block.now }
    {
        if j < 8 {
            put(&mut self.bytes, 512 * usize::from(j), block);
        }
    }

    // How many numbers it has.
    pub fn count(&self) -> u32
        ensures { result ≡ ones_in self.now.bytes }
    {
        ones_in(&self.bytes)
    }

    pub fn has(&self, number: u16) -> bool
        ensures { result ≡ in_set self.now.bytes number }
    {
        let byte = self
            .bytes
            .get(usize::from(number / 8))
            .copied()
            .unwrap_or(0);
        byte >> (number % 8) & 1 == 1
    }

    // Adds a number below 32,768; no other can be added.
    pub fn insert(&mut self, number: u16)
        ensures added { number < 32768 → (p : ℕ) → in_set self.new.bytes p ≡ with (in_set self.old.bytes) number p }
        ensures above { 32768 ≤ number → self.new ≡ self.old }
    {
        if number < 32_768 {
            self.bytes[usize::from(number / 8)] |= 1 << (number % 8);
        }
    }

    pub fn remove(&mut self, number: u16)
        ensures { (p : ℕ) → in_set self.new.bytes p ≡ without (in_set self.old.bytes) number p }
    {
        if number < 32_768 {
            self.bytes[usize::from(number / 8)] &= !(1 << (number % 8));
        }
    }

    // The bytes of the block that has the number.
    pub fn block(&self, number: u16) -> [u8; 512]
        ensures { result ≡ stock_block (in_set self.now.bytes) (number / 4096) }
    {
        part(&self.bytes, number / 4096)
    }

    // Whether it has the same numbers as another, and so the same bytes.
    pub fn same(&self, other: &PackSet) -> bool
        ensures numbers { Decides result ((p : ℕ) → in_set self.now.bytes p ≡ in_set other.now.bytes p) }
        ensures bytes { Decides result (self.now.bytes ≡ other.now.bytes) }
    {
        same_bytes(&self.bytes, &other.bytes)
    }
}

// This and the functions below take the array and not the set: of an array the proofs know that
// each byte is below 256, and of a field they do not.
fn ones_in(bytes: &[u8; 4096]) -> u32
    ensures { result ≡ ones_in bytes.now }
{
    bytes.iter().map(|byte| byte.count_ones()).sum()
}

// The j-th of the eight blocks that spell a set; zeros past them.
fn part(bytes: &[u8; 4096], j: u16) -> [u8; 512]
    ensures { result ≡ stock_block (in_set bytes.now) j }
{
    let (blocks, _) = bytes.as_chunks::<512>();
    blocks.get(usize::from(j)).copied().unwrap_or([0; 512])
}

fn same_bytes(left: &[u8; 4096], right: &[u8; 4096]) -> bool
    ensures numbers { Decides result ((p : ℕ) → in_set left.now p ≡ in_set right.now p) }
    ensures bytes { Decides result (left.now ≡ right.now) }
{
    left == right
}

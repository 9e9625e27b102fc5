// The numbers of a reservoir, in range or not.
#[derive(Clone, Copy, Default, PartialEq, Eq, Debug)]
pub struct Counts {
    // at most so many packs are sampled (M)
    pub capacity: u16,
    // the packs in stock (N), and those of them in the sample (k)
    pub size: u16,
    pub sampled: u16,
    // the deletions not yet compensated: of packs in the sample, and of packs out of it
    pub c1: u16,
    pub c2: u16,
    // the calls committed (q), and the words that they used (w)
    pub calls: u32,
    pub words: u64,
}

// Why no reservoir has these numbers.
#[derive(Clone, Copy, PartialEq, Eq, Debug)]
pub enum CountsError {
    // one of them is out of its range
    OutOfRange,
    // k + c1 is not the smaller of M and N + D
    Unbalanced,
}

impl Counts {
    ghost use Rattle.std.specs.Prelude.{◌≡◌, ◌+◌};
    ghost use Rattle.pairing.specs.Ranges.{in_range, balanced};

    // N + D: the packs in stock, and the deletions not yet compensated.
    fn with_deletions(self) -> u32
        ensures { result ≡ self.size + (self.c1 + self.c2) }
    {
        u32::from(self.size) + u32::from(self.c1) + u32::from(self.c2)
    }

    // Whether each number is in its range, but for the balance of the sample.
    pub(crate) fn is_in_range(self) -> bool
        ensures { result ≡ in_range self }
    {
        (1..=512).contains(&self.capacity)
            && self.sampled <= self.capacity
            && self.sampled <= self.size
            && self.with_deletions() <= 32_768
            && self.words <= 64 * u64::from(self.calls)
    }

    // Whether k + c1 is the smaller of M and N + D.
    pub(crate) fn is_balanced(self) -> bool
        ensures { result ≡ balanced self }
    {
        u32::from(self.sampled) + u32::from(self.c1)
            == u32::from(self.capacity).min(self.with_deletions())
    }
}

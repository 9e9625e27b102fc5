ghost use Rattle.std.specs.Prelude.{◌≡◌, ◌≤◌};
ghost use Rattle.std.specs.Option.{option_map, SomeIff};
ghost use Rattle.std.specs.Result.{result_map_both};
ghost use Rattle.pairing.specs.Ranges.{Checks, no_counts};

use crate::counters::Counters;
use crate::counts::{Counts, CountsError};

impl TryFrom<Counts> for Counters {
    type Error = CountsError;

    ghost try_from_gives = { λ n r. Checks n (result_map_both (λ c. c.counts) (λ e. e) r) };

    fn try_from(counts: Counts) -> Result<Counters, CountsError> {
        if !counts.is_in_range() {
            return Err(CountsError::OutOfRange);
        }
        if !counts.is_balanced() {
            return Err(CountsError::Unbalanced);
        }
        Ok(Counters { counts })
    }
}

impl Counters {
    // The counters of an empty reservoir, for a capacity from 1 to 512.
    pub fn new(capacity: u16) -> Option<Counters>
        ensures { SomeIff (option_map (λ c. c.counts) result) ((1 ≤ capacity) × (capacity ≤ 512)) (no_counts capacity) }
    {
        let counts = Counts {
            capacity,
            ..Counts::default()
        };
        Counters::try_from(counts).ok()
    }

    pub fn get(self) -> Counts
        ensures { result ≡ self.counts }
    {
        self.counts
    }
}

ghost use Rattle.pairing.specs.Ranges.{Limits, Sample, Room, Balance, Usage};

use crate::counts::Counts;

mod make;
mod steps;

// The numbers of a reservoir, in their ranges.
#[derive(Clone, Copy, PartialEq, Eq, Debug)]
pub struct Counters {
    counts: Counts,
    ghost limits: { Limits counts },
    ghost sample: { Sample counts },
    ghost room: { Room counts },
    ghost balance: { Balance counts },
    ghost usage: { Usage counts },
}

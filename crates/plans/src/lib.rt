// The calls on a register as plans: what each finds, answers and writes, and what a power failure at any write leaves.
#![tactic(auto)]

ghost use Rattle.std.specs.Prelude.{◌≡◌};
ghost use Rattle.plans.specs.Plans.{finished_call};
ghost use Rattle.plans.specs.Recovery.{Recovers, Makes};

use items::Kind;
use journal::{Pending, PendingCall};
use pairing::Counts;

// The blocks of a register.
pub const BLOCKS: u16 = 78;

// The call that Open finished.
#[derive(Clone, Copy, Debug, PartialEq, Eq)]
pub enum Finished {
    Store { number: u16, draw: u16 },
    Take { number: u16 },
}

impl From<Pending> for Finished {
    ghost from_gives = { λ p f. f ≡ finished_call p.call p.number };

    fn from(pending: Pending) -> Finished {
        let number = pending.number;
        match pending.call {
            PendingCall::Store { draw, .. } => Finished::Store { number, draw },
            PendingCall::Take => Finished::Take { number },
        }
    }
}

// What Open answers.
#[derive(Clone, Copy, Debug, PartialEq, Eq)]
pub struct Opened {
    pub counts: Counts,
    // the call that was pending
    pub finished: Option<Finished>,
}

// After a power failure at any write of Store, Take or Open, Open finds the reservoir of the committed calls.
pub fn registers_recover<K: Kind>()
    ensures { Recovers K.Kind.code K.Kind.form K.Kind.reading }
{}

// A Make that is interrupted before its last write is on the disk adds nothing that Open could find.
pub fn makes_are_whole<K: Kind>()
    ensures { Makes K.Kind.code K.Kind.form K.Kind.reading }
{}

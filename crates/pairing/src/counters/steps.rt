ghost use Rattle.std.specs.Prelude.{◌≡◌, ◌-◌, ◌<◌, ◌≤◌, IfSome};
ghost use Rattle.std.specs.Option.{option_map, SomeIff};
ghost use Rattle.pairing.specs.Reservoir.{c1_after, c2_after};
ghost use Rattle.pairing.specs.Steps.{width_at, effect_at, filled_at, sampled_after, after_store, CanStore};
ghost use Rattle.pairing.specs.Rules.{after_take, CanTake};

use crate::Effect;
use crate::counters::Counters;
use crate::counts::Counts;
use words::{Drawn, Width};

impl Counters {
    // Among how many values the next store draws; None where no number is left for its pack.
    pub fn width(self) -> Option<Width>
        ensures { SomeIff (option_map (λ w. w.value) result) (width_at self.counts ≤ 32768) (width_at self.counts) }
    {
        Width::new(self.next_width())
    }

    fn next_width(self) -> u16
        ensures { result ≡ width_at self.counts }
    {
        let n = self.counts;
        let deletions = n.c1 + n.c2;
        if 0 < deletions {
            deletions
        } else if n.size < n.capacity {
            1
        } else {
            n.size + 1
        }
    }

    // What the next store does with this draw.
    pub fn effect(self, draw: u16) -> Effect
        ensures { result ≡ effect_at self.counts draw }
    {
        let n = self.counts;
        if 0 < n.c1 + n.c2 {
            if draw < n.c1 {
                Effect::Enters
            } else {
                Effect::StaysOut
            }
        } else if n.size < n.capacity {
            Effect::Enters
        } else if draw < n.capacity {
            Effect::Replaces(draw)
        } else {
            Effect::StaysOut
        }
    }

    // The slot that the next store fills with this draw.
    pub fn filled(self, draw: u16) -> Option<u16>
        ensures value { result ≡ filled_at self.counts draw }
        ensures within { IfSome result (λ i. (i ≤ self.counts.sampled) × (i < self.counts.capacity)) }
    {
        match self.effect(draw) {
            Effect::Enters => Some(self.counts.sampled),
            Effect::Replaces(slot) => Some(slot),
            Effect::StaysOut => None,
        }
    }

    // The last slot of the sample, which a take in the sample moves into the slot that it frees.
    pub fn last(self) -> Option<u16>
        ensures { SomeIff result (0 < self.counts.sampled) (self.counts.sampled - 1) }
    {
        self.counts.sampled.checked_sub(1)
    }

    // The counters after a store with this draw.
    pub fn after_store(self, drawn: Drawn) -> Option<Counters>
        ensures { SomeIff (option_map (λ c. c.counts) result) (CanStore self.counts drawn) (after_store self.counts drawn) }
    {
        let n = self.counts;
        let width = self.next_width();
        if 32_768 < width || width <= drawn.value || 64 < drawn.used {
            return None;
        }
        let effect = self.effect(drawn.value);
        let counts = Counts {
            calls: n.calls.checked_add(1)?,
            size: n.size + 1,
            sampled: sampled_after(n.sampled, effect),
            c1: c1_after(n.c1, effect),
            c2: c2_after(n.c2, effect),
            words: n.words + u64::from(drawn.used),
            ..n
        };
        Some(Counters { counts })
    }

    // The counters after a take of a pack in the sample, or of one out of it.
    pub fn after_take(self, in_sample: bool) -> Option<Counters>
        ensures { SomeIff (option_map (λ c. c.counts) result) (CanTake in_sample self.counts) (after_take in_sample self.counts) }
    {
        let n = self.counts;
        let calls = n.calls.checked_add(1)?;
        let counts = if in_sample {
            Counts {
                calls,
                sampled: n.sampled.checked_sub(1)?,
                size: n.size - 1,
                c1: n.c1 + 1,
                ..n
            }
        } else if n.sampled < n.size {
            Counts {
                calls,
                size: n.size - 1,
                c2: n.c2 + 1,
                ..n
            }
        } else {
            return None;
        };
        Some(Counters { counts })
    }
}

fn sampled_after(sampled: u16, effect: Effect) -> u16
    requires { sampled ≤ 512 }
    ensures { result ≡ sampled_after sampled effect }
{
    match effect {
        Effect::Enters => sampled + 1,
        Effect::Replaces(_) | Effect::StaysOut => sampled,
    }
}

fn c1_after(c1: u16, effect: Effect) -> u16
    ensures { result ≡ c1_after c1 effect }
{
    match effect {
        Effect::Enters => c1.saturating_sub(1),
        Effect::Replaces(_) | Effect::StaysOut => c1,
    }
}

fn c2_after(c2: u16, effect: Effect) -> u16
    ensures { result ≡ c2_after c2 effect }
{
    match effect {
        Effect::Enters | Effect::Replaces(_) => c2,
        Effect::StaysOut => c2.saturating_sub(1),
    }
}

// Laws of sessions, each the contract of a function, over any two kinds of item.
ghost use Rattle.std.specs.Prelude.{◌≡◌, ◌≢◌};
ghost use Rattle.session.specs.Calls.{kind_of};
ghost use Rattle.session.specs.Examples.{Examples};
ghost use Rattle.session.specs.Law.{Fairness};
ghost use Rattle.session.specs.StepLaws.{StepsAreLawful};

use items::Kind;

// Where a register stands, every call has an outcome of the table, and the register stands after it.
pub fn steps_are_lawful<K: Kind, J: Kind>()
    ensures { StepsAreLawful (kind_of K.Kind) (kind_of J.Kind) }
{}

// By any failure plan no group of packs is favoured: two groups are found under equally many draw lists exactly when their weights
// are equal.
pub fn no_group_is_favoured<K: Kind, J: Kind>()
    ensures { (K.Kind.code ≢ J.Kind.code) → Fairness (kind_of K.Kind) (kind_of J.Kind) }
{}

// The worked examples: draws, a run with its weights and draw lists, codes and days.
pub fn examples_hold<X>()
    ensures { Examples X }
{}

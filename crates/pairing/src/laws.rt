// Laws of the reservoir, each the contract of a function, over any item.
ghost use Rattle.pairing.specs.Example.{Worked};
ghost use Rattle.pairing.specs.Moves.{SlotsFollow};
ghost use Rattle.pairing.specs.Rules.{ReachableIsLawful, NumbersFollow, CallsPossible, SlotsDistinct};

// The numbers of a reservoir after a call are those of the step on its numbers.
pub fn numbers_follow<X>()
    ensures { NumbersFollow X }
{}

// A store fills one slot or none, and a take moves the last slot into the one that it frees.
pub fn slots_follow<X>()
    ensures { SlotsFollow X }
{}

// Every reservoir that can be reached keeps the rules.
pub fn reachable_is_lawful<X>()
    ensures { ReachableIsLawful X }
{}

// In a lawful reservoir a number is found in the slot where it stands, and in no other.
pub fn slots_are_distinct<X>()
    ensures { SlotsDistinct X }
{}

// The numbers of a lawful reservoir allow each call on it that comes before the last.
pub fn calls_are_possible<X>()
    ensures { CallsPossible X }
{}

// With capacity 2 and the words 2 and 0: Store 10, 11, 12, 13, Take 11, Take 10 leave 13 in slot 0.
pub fn example_holds<X>()
    ensures { Worked X }
{}

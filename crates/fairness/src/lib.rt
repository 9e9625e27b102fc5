// The counting law of the pairing, over whole histories of stores and takes: no group of packs is favoured.
#![tactic(auto)]

ghost use Rattle.fairness.specs.Laws.{Counting, Fair, Enumerated, OnlyTheSampleIsDrawn, FoundIsSameSet, Example};

// Every group of packs in stock is the sample under K times its weight many draw lists.
pub fn every_group_is_found<X>()
    ensures { Counting X }
{}

// Two groups are the sample equally often exactly when their weights are equal.
pub fn weights_decide<X>()
    ensures { Fair X }
{}

// The draw lists that are counted are the admissible ones, each once.
pub fn draw_lists_are_all<X>()
    ensures { Enumerated X }
{}

// No draw changes which calls are possible, how many packs are in stock, or among how many values a later store draws.
pub fn only_the_sample_is_drawn<X>()
    ensures { OnlyTheSampleIsDrawn X }
{}

// A group is found when its packs in stock are the packs in the slots.
pub fn found_is_same_set<X>()
    ensures { FoundIsSameSet X }
{}

// With capacity 2, four stores and two takes: 2 of the 12 draw lists leave the sample empty, 4 leave 12, 4 leave 13, 2 leave both.
pub fn example_holds<X>()
    ensures { Example X }
{}

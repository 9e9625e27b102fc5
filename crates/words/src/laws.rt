// Laws of draws, each the contract of a function.
ghost use Rattle.words.specs.Laws.{LimitLargest, FirstIsDrawn, SmallIsDrawn, WordsAreEven, DrawsAreEven, Examples};

// The limit of a width is its largest multiple up to 2^32.
pub fn limit_is_largest()
    ensures { LimitLargest }
{}

// The first word below the limit is drawn, and a draw is refused only for want of one.
pub fn first_is_drawn()
    ensures { FirstIsDrawn }
{}

// A word below the width is drawn as it is.
pub fn small_is_drawn()
    ensures { SmallIsDrawn }
{}

// Of the words below the limit, each draw has as many as any other.
pub fn words_are_even()
    ensures { WordsAreEven }
{}

// Of all choices of 64 words, each draw comes from as many as any other.
pub fn draws_are_even()
    ensures { DrawsAreEven }
{}

// With width 3 the word 4294967294 draws 2, and the words 4294967295 and 4 draw 1.
pub fn examples_hold()
    ensures { Examples }
{}

// Theorems on the rules of items, each the contract of a function.
ghost use Rattle.std.specs.Prelude.{◌≡◌, true};
ghost use Rattle.items.specs.Examples.{Examples};

use crate::kind::Kind;
use crate::label::Label;
use crate::ward_box::WardBox;

// The worked examples of check digits and days.
pub fn examples_hold()
    ensures { Examples }
{}

// The two kinds have codes of their own.
pub fn codes_differ() -> bool
    ensures { result ≡ true }
{
    Label::kind_code() != WardBox::kind_code()
}

ghost use Rattle.std.specs.Prelude.{◌≡◌, true};
ghost use Rattle.items.specs.Texts.{chars};
ghost use Rattle.items.specs.Lawful.{lawful_box};

use crate::text::Text;

mod kind;
mod sections;

// A ward's box: the ward, and by how many grams it weighs more than it should, if that is known.
#[derive(Clone, Copy, PartialEq, Eq, Debug)]
pub struct WardBox {
    ward: Text<12>,
    difference: Option<i16>,
    ghost lawful: { lawful_box (chars ward) difference ≡ true },
}

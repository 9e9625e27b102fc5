ghost use Rattle.std.specs.Prelude.{◌≡◌, true};
ghost use Rattle.items.specs.Texts.{chars};
ghost use Rattle.items.specs.Lawful.{lawful_label};

use crate::text::Text;

mod kind;
mod sections;

// A pack's label: its code, its batch and its expiry, all lawful.
#[derive(Clone, Copy, PartialEq, Eq, Debug)]
pub struct Label {
    code: Text<14>,
    batch: Text<20>,
    expiry: Text<6>,
    ghost lawful: { lawful_label (chars code) (chars batch) (chars expiry) ≡ true },
}

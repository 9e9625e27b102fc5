ghost use Rattle.std.specs.Prelude.{◌≡◌, ℕ, true, ◌⊎◌, List, length, Some, Option, nat_lt};
ghost use Rattle.octets.specs.Zeros.{every};
ghost use Rattle.items.specs.Kinds.{code_of};

use crate::item_kind::ItemKind;

// A kind of item, by its code, the form of each item and the reading of forms.
pub trait Kind: Copy {
    // the kind's code
    ghost code: { ℕ };

    // the bytes of an item
    ghost form: { Self → List ℕ };

    // the item that bytes hold, if they are a form
    ghost reading: { List ℕ → Option Self };

    fn kind() -> ItemKind
        ensures { code_of result ≡ code };

    final fn kind_code() -> u8
        ensures { result ≡ code }
    {
        u8::from(Self::kind())
    }

    fn to_form(&self) -> [u8; 60]
        ensures { result ≡ form self.now };

    fn from_form(bytes: &[u8]) -> Option<Self>
        ensures { result ≡ reading bytes.now };

    ghost known: { (code ≡ 1) ⊎ (code ≡ 2) };

    ghost sized: { (x : Self) → length (form x) ≡ 60 };

    // a form is bytes
    ghost bounded: { (x : Self) → every (λ b. nat_lt b 256) (form x) ≡ true };

    // reading an item's form gives the item
    ghost round: { (x : Self) → reading (form x) ≡ Some x };

    // bytes that read as an item are exactly its form
    ghost exact: { (s : List ℕ) (x : Self) → reading s ≡ Some x → s ≡ form x };
}

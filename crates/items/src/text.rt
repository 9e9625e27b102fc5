ghost use Rattle.items.specs.Padded.{Padded};

mod chars;

// A text of at most N characters. The bytes behind them are zeros, so equal texts are equal values.
// A length beside its array: this crate uses no heap, and items are copied.
#[derive(Clone, Copy, PartialEq, Eq, Debug)]
pub struct Text<const N: usize> {
    len: usize,
    bytes: [u8; N],
    ghost padded: { Padded N len bytes },
}

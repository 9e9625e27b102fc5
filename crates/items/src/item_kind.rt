ghost use Rattle.std.specs.Prelude.{◌≡◌, Some};
ghost use Rattle.items.specs.Kinds.{code_of, words_of, Decodes, Names};

use std::error::Error;
use std::fmt;
use std::str::FromStr;

// The kinds of item, by the codes that registers hold.
#[derive(Clone, Copy, PartialEq, Eq, Debug)]
pub enum ItemKind {
    Label,
    WardBox,
}

// A code that no kind has.
#[derive(Clone, Copy, PartialEq, Eq, Debug)]
pub struct UnknownCode(pub u8);

// A word that names no kind.
#[derive(Clone, Copy, PartialEq, Eq, Debug)]
pub struct UnknownWord;

impl From<ItemKind> for u8 {
    ghost from_gives = { λ kind code. code ≡ code_of kind };

    fn from(kind: ItemKind) -> u8 {
        match kind {
            ItemKind::Label => 1,
            ItemKind::WardBox => 2,
        }
    }
}

impl TryFrom<u8> for ItemKind {
    type Error = UnknownCode;

    ghost try_from_gives = { Decodes };

    fn try_from(code: u8) -> Result<ItemKind, UnknownCode> {
        match code {
            1 => Ok(ItemKind::Label),
            2 => Ok(ItemKind::WardBox),
            _ => Err(UnknownCode(code)),
        }
    }
}

impl FromStr for ItemKind {
    type Err = UnknownWord;

    ghost from_str_gives = { Names };

    fn from_str(word: &str) -> Result<ItemKind, UnknownWord> {
        match word {
            "label" => Ok(ItemKind::Label),
            "box" => Ok(ItemKind::WardBox),
            _ => Err(UnknownWord),
        }
    }
}

impl fmt::Display for ItemKind {
    ghost output = { λ kind. Some (words_of kind) };

    fn fmt<W: fmt::Write>(&self, f: &mut fmt::Formatter<W>) -> fmt::Result {
        f.write_str(match self {
            ItemKind::Label => "label",
            ItemKind::WardBox => "box",
        })
    }
}

impl fmt::Display for UnknownCode {
    fn fmt<W: fmt::Write>(&self, f: &mut fmt::Formatter<W>) -> fmt::Result {
        write!(f, "no kind of item has code {}", self.0)
    }
}

impl fmt::Display for UnknownWord {
    fn fmt<W: fmt::Write>(&self, f: &mut fmt::Formatter<W>) -> fmt::Result {
        f.write_str("no kind of item: label or box")
    }
}

impl Error for UnknownCode {}

impl Error for UnknownWord {}

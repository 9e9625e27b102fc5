// The parts of a form: sections after their count bytes.
ghost use Rattle.std.specs.Prelude.{◌≡◌, ◌+◌, ◌≤◌, List, [], ◌++◌, length};
ghost use Rattle.items.specs.Forms.{counted, front, behind};
ghost use Rattle.items.specs.Texts.{padded};

use std::marker::Model;

// A form in the making: its bytes, and the place behind those that are written.
#[derive(Drop)]
pub(crate) struct Form {
    bytes: [u8; 60],
    at: usize,
}

// Clauses see the bytes that are written.
impl Model for Form {
    ghost use Rattle.std.specs.Prelude.{ℕ, List, take};
    ghost use Rattle.items.specs.Padded.{Padded};

    ghost Value = { List ℕ };

    ghost view = { λ f. take f.at f.bytes };

    ghost invariant = { λ f. Padded 60 f.at f.bytes };
}

impl Form {
    // All zeros, none of them written.
    pub(crate) fn new() -> Form
        ensures { result ≡ [] }
    {
        Form {
            bytes: [0; 60],
            at: 0,
        }
    }

    // Writes the bytes behind what is written.
    pub(crate) fn put(&mut self, bytes: &[u8])
        requires { length self.old + length bytes.now ≤ 60 }
        ensures { self.new ≡ self.old ++ bytes.now }
    {
        octets::put(&mut self.bytes, self.at, bytes);
        self.at += bytes.len();
    }

    // Writes the section after its count byte.
    pub(crate) fn put_section(&mut self, section: &[u8])
        requires { length self.old + (1 + length section.now) ≤ 60 }
        ensures { self.new ≡ self.old ++ counted section.now }
    {
        self.put(&[section.len() as u8]);
        self.put(section);
    }

    // The form as it stands: zeros behind what is written.
    #[tactic(auto, using(crate::specs::PaddedLaws::padded_bytes))]
    pub(crate) fn bytes(self) -> [u8; 60]
        ensures { result ≡ padded 60 self }
    {
        self.bytes
    }
}

// The first section, and what stands behind it.
pub(crate) fn section(bytes: &[u8]) -> (&[u8], &[u8])
    ensures first { result.0.now ≡ front bytes.now }
    ensures rest { result.1.now ≡ behind bytes.now }
{
    let Some((count, rest)) = bytes.split_first() else {
        return (bytes, bytes);
    };
    rest.split_at_checked(usize::from(*count))
        .unwrap_or((rest, &[]))
}

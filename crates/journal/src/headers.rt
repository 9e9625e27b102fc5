// The journal header, block 1 of a register: free, or pending with what a commit was to change.
ghost use Rattle.std.specs.Prelude.{◌≡◌};
ghost use Rattle.journal.specs.Header.{free_bytes, pending_bytes, fields_for, call_fields, bytes_header, header_of, free_or_refused};

use device::Entry;
use fault::{Damage, Fault};
use octets::{put, same};

mod fields;

use fields::{CallFields, Fields, OutOfRange, is_marked};

// What a journal header says.
#[derive(Clone, Copy, Debug, PartialEq, Eq)]
pub enum Header {
    Free,
    Unreadable,
    Pending(Pending),
    // marked as pending, with a field out of its range
    Unlawful,
    Other,
}

// A call that was to be committed.
#[derive(Clone, Copy, Debug, PartialEq, Eq)]
pub struct Pending {
    pub call: PendingCall,
    // the pack's number
    pub number: u16,
    // the count of calls after it
    pub calls: u64,
    // the count of words before it
    pub words: u64,
    // the blocks that the after-images belong to
    pub blocks: [u16; 4],
}

#[derive(Clone, Copy, Debug, PartialEq, Eq)]
pub enum PendingCall {
    Store {
        width: u16,
        draw: u16,
        // the words that the draw used
        used: u8,
    },
    Take,
}

impl Header {
    // What the entry of the header's block says.
    pub fn read(entry: &Entry) -> Header
        ensures { result ≡ header_of entry.now }
    {
        match entry {
            Some(bytes) => read_bytes(bytes),
            None => Header::Unreadable,
        }
    }

    // Refuses any header that is not free.
    pub fn require_free(&self) -> Result<(), Fault>
        ensures { result ≡ free_or_refused self.now }
    {
        match self {
            Header::Free => Ok(()),
            Header::Unreadable | Header::Pending(_) | Header::Unlawful => Err(Fault::NOT_FREE),
            Header::Other => Err(Fault::not_register(1, Damage::Mark)),
        }
    }
}

// What the bytes of a header say.
fn read_bytes(bytes: &[u8; 512]) -> Header
    ensures { result ≡ bytes_header bytes.now }
{
    if same(bytes, &free_header()) {
        return Header::Free;
    }
    if !is_marked(bytes) {
        return Header::Other;
    }
    match Pending::try_from(Fields::from(bytes)) {
        Ok(pending) => Header::Pending(pending),
        Err(OutOfRange) => Header::Unlawful,
    }
}

impl Pending {
    // The header with this call pending.
    pub fn to_bytes(&self) -> [u8; 512]
        ensures { result ≡ pending_bytes self.now }
    {
        Fields::from(*self).to_bytes()
    }
}

impl From<Pending> for Fields {
    ghost from_gives = { λ pending fields. fields ≡ fields_for pending };

    fn from(pending: Pending) -> Fields {
        let blocks = pending.blocks;
        Fields {
            call: CallFields::from(pending.call),
            number: pending.number,
            calls: pending.calls,
            words: pending.words,
            blocks,
        }
    }
}

impl From<PendingCall> for CallFields {
    ghost from_gives = { λ call fields. fields ≡ call_fields call };

    fn from(call: PendingCall) -> CallFields {
        match call {
            PendingCall::Store { width, draw, used } => CallFields {
                letter: b'S',
                width: u32::from(width),
                draw: u32::from(draw),
                used,
            },
            PendingCall::Take => CallFields {
                letter: b'T',
                width: 0,
                draw: 0,
                used: 0,
            },
        }
    }
}

// The header of a journal that nothing is pending in.
pub fn free_header() -> [u8; 512]
    ensures { result ≡ free_bytes }
{
    let mut bytes = [0; 512];
    put(&mut bytes, 0, b"FREE");
    bytes
}

// The fields of a pending header as they stand in its bytes, whatever they hold.
ghost use Rattle.std.specs.Prelude.{◌≡◌};
ghost use Rattle.std.specs.Option.{ok_or};
ghost use Rattle.journal.specs.Header.{out_of_range, reserved_zero, marked, fields_of, field_bytes, slot_block, stock_block, lawful_blocks, store_of, take_of, call_of, pending_of};

use super::{Pending, PendingCall};
use octets::{all_zero, put, u16_at, u32_at, u64_at};

// As in `Pending`, but with the call as its bytes have it; one generic struct would name neither.
#[derive(Clone, Copy)]
pub(crate) struct Fields {
    pub(crate) call: CallFields,
    pub(crate) number: u16,
    pub(crate) calls: u64,
    pub(crate) words: u64,
    pub(crate) blocks: [u16; 4],
}

#[derive(Clone, Copy)]
pub(crate) struct CallFields {
    pub(crate) letter: u8,
    pub(crate) width: u32,
    pub(crate) draw: u32,
    pub(crate) used: u8,
}

// A field holds what no pending call has there.
#[derive(Clone, Copy, Debug, PartialEq, Eq)]
pub(crate) struct OutOfRange;

// Whether the mark stands, and zeros in every byte that no field has.
pub(crate) fn is_marked(bytes: &[u8; 512]) -> bool
    ensures { result ≡ marked bytes.now }
{
    bytes.starts_with(b"JRNL") && is_reserved_zero(bytes)
}

fn is_reserved_zero(bytes: &[u8; 512]) -> bool
    ensures { result ≡ reserved_zero bytes.now }
{
    let before = all_zero(&bytes[33..40]);
    let behind = all_zero(&bytes[48..512]);
    bytes[5] == 0 && before && behind
}

impl From<&[u8; 512]> for Fields {
    ghost from_gives = { λ bytes fields. fields ≡ fields_of bytes.now };

    fn from(bytes: &[u8; 512]) -> Fields {
        Fields {
            call: CallFields {
                letter: bytes[4],
                width: u32_at(bytes, 8),
                draw: u32_at(bytes, 12),
                used: bytes[32],
            },
            number: u16_at(bytes, 6),
            calls: u64_at(bytes, 16),
            words: u64_at(bytes, 24),
            blocks: [
                u16_at(bytes, 40),
                u16_at(bytes, 42),
                u16_at(bytes, 44),
                u16_at(bytes, 46),
            ],
        }
    }
}

impl Fields {
    pub(crate) fn to_bytes(&self) -> [u8; 512]
        ensures { result ≡ field_bytes self.now }
    {
        let [first, second, third, fourth] = self.blocks;
        let mut bytes = [0; 512];
        put(&mut bytes, 0, b"JRNL");
        put(&mut bytes, 4, &[self.call.letter]);
        put(&mut bytes, 6, &self.number.to_le_bytes());
        put(&mut bytes, 8, &self.call.width.to_le_bytes());
        put(&mut bytes, 12, &self.call.draw.to_le_bytes());
        put(&mut bytes, 16, &self.calls.to_le_bytes());
        put(&mut bytes, 24, &self.words.to_le_bytes());
        put(&mut bytes, 32, &[self.call.used]);
        put(&mut bytes, 40, &first.to_le_bytes());
        put(&mut bytes, 42, &second.to_le_bytes());
        put(&mut bytes, 44, &third.to_le_bytes());
        put(&mut bytes, 46, &fourth.to_le_bytes());
        bytes
    }
}

// What is pending, if all fields are in their ranges.
impl TryFrom<Fields> for Pending {
    type Error = OutOfRange;

    ghost try_from_gives = { λ fields result. result ≡ ok_or (pending_of fields) out_of_range };

    fn try_from(fields: Fields) -> Result<Pending, OutOfRange> {
        if fields.number >= 32_768 || !are_lawful(fields.blocks) {
            return Err(OutOfRange);
        }
        Ok(Pending {
            call: PendingCall::try_from(fields.call)?,
            number: fields.number,
            calls: fields.calls,
            words: fields.words,
            blocks: fields.blocks,
        })
    }
}

// Whether these are two slot blocks, a stock block and the head.
fn are_lawful(blocks: [u16; 4]) -> bool
    ensures { result ≡ lawful_blocks blocks }
{
    let [first, second, third, fourth] = blocks;
    is_slot(first) && is_slot(second) && is_stock(third) && fourth == 0
}

fn is_slot(block: u16) -> bool
    ensures { result ≡ slot_block block }
{
    (14..=77).contains(&block)
}

fn is_stock(block: u16) -> bool
    ensures { result ≡ stock_block block }
{
    (6..=13).contains(&block)
}

// The call, if its fields are in their ranges.
impl TryFrom<CallFields> for PendingCall {
    type Error = OutOfRange;

    ghost try_from_gives = { λ fields result. result ≡ ok_or (call_of fields) out_of_range };

    fn try_from(fields: CallFields) -> Result<PendingCall, OutOfRange> {
        match fields.letter {
            b'S' => fields.store(),
            b'T' => fields.take(),
            _ => Err(OutOfRange),
        }
    }
}

impl CallFields {
    fn store(self) -> Result<PendingCall, OutOfRange>
        ensures { result ≡ ok_or (store_of self) out_of_range }
    {
        if (1..=32_768).contains(&self.width) && self.draw < self.width && self.used <= 64 {
            Ok(PendingCall::Store {
                width: self.width as u16,
                draw: self.draw as u16,
                used: self.used,
            })
        } else {
            Err(OutOfRange)
        }
    }

    fn take(self) -> Result<PendingCall, OutOfRange>
        ensures { result ≡ ok_or (take_of self) out_of_range }
    {
        if self.width == 0 && self.draw == 0 && self.used == 0 {
            Ok(PendingCall::Take)
        } else {
            Err(OutOfRange)
        }
    }
}

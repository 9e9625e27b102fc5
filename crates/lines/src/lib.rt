// What a confirmed line of the scan field says: `S number code batch expiry` stores a pack, `T number` takes one,
// and any other line is refused at its first misfit byte.
#![tactic(auto)]

ghost use Rattle.std.specs.Prelude.{◌≡◌, ◌+◌, ◌<◌, ◌≤◌, length, IfOk, Ok, Err, MatchResult};
ghost use Rattle.fault.specs.Refusals.{not_transaction};
ghost use Rattle.lines.specs.declared.Field.TheVariants.{Number};
ghost use Rattle.lines.specs.Grammar.{fits, least, most, optional, Written, value, present};
ghost use Rattle.lines.specs.Laws.{MisfitLaw, ShapedLaw};
ghost use Rattle.lines.specs.Meaning.{run, front, spaced, last, numbered, taken, stored, meaning};

mod shown;

use fault::Fault;
use items::Label;

// What a line asks for.
#[derive(Clone, Copy, PartialEq, Eq, Debug)]
pub enum Transaction {
    Store { number: u16, label: Label },
    Take { number: u16 },
}

// A field of a line, by its kind.
#[derive(Clone, Copy, PartialEq, Eq, Debug)]
enum Field {
    Number,
    Code,
    Batch,
    Expiry,
}

impl Field {
    // Whether the field may have this byte.
    fn fits(self, byte: u8) -> bool
        ensures { result ≡ fits self byte }
    {
        match self {
            Field::Number | Field::Code | Field::Expiry => byte.is_ascii_digit(),
            Field::Batch => byte.is_ascii_alphanumeric(),
        }
    }

    // How many bytes it has at least.
    fn least(self) -> usize
        ensures { result ≡ least self }
    {
        match self {
            Field::Number | Field::Code | Field::Batch => 1,
            Field::Expiry => 6,
        }
    }

    // How many bytes it has at most.
    fn most(self) -> usize
        ensures { result ≡ most self }
    {
        match self {
            Field::Number => 5,
            Field::Code => 14,
            Field::Batch => 20,
            Field::Expiry => 6,
        }
    }

    // Whether `-` may stand for it.
    fn optional(self) -> bool
        ensures { result ≡ optional self }
    {
        match self {
            Field::Number | Field::Code => false,
            Field::Batch | Field::Expiry => true,
        }
    }

    // How many bytes at the front of the text fit the field, up to as many as it has at most.
    fn run(self, text: &[u8]) -> usize
        ensures value { result ≡ run self (most self) text.now }
        ensures within { (result ≤ most self) × (result ≤ length text.now) }
    {
        text.iter()
            .take(self.most())
            .take_while(|byte| self.fits(**byte))
            .count()
    }
}

// The rest of a line, from its byte `at` on. That is far below 256 wherever a field begins, so that a misfit's place fits a byte.
#[derive(Clone, Copy)]
struct Rest<'a> {
    at: usize,
    text: &'a [u8],
}

// Refusal 13, at this byte of the line.
fn misfit(at: usize) -> Fault
    requires { at < 256 }
    ensures { result ≡ not_transaction at }
{
    Fault::not_transaction(at as u8)
}

// Each takes `at` within 100: as a ghost field the bound would have to count the fields that were read.
impl<'a> Rest<'a> {
    // Where the field at the front ends.
    fn front(self, field: Field) -> Result<usize, Fault>
        requires { self.at ≤ 100 }
        ensures value { result ≡ front field self.entry.at self.entry.text.now }
        ensures within { IfOk result (λ n. (n ≤ 20) × (n ≤ length self.entry.text.now)) }
    {
        match self.text {
            [b'-', ..] if field.optional() => Ok(1),
            text => {
                let n = field.run(text);
                if n < field.least() {
                    Err(misfit(self.at + n))
                } else {
                    Ok(n)
                }
            }
        }
    }

    // The field at the front, and the rest behind the space after it.
    fn spaced(self, field: Field) -> Result<(&'a [u8], Rest<'a>), Fault>
        requires { self.at ≤ 100 }
        ensures value { MatchResult result (λ x. spaced field self.entry.at self.entry.text.now ≡ Ok (x.0.now, x.1.at, x.1.text.now)) (λ e. spaced field self.entry.at self.entry.text.now ≡ Err e) }
        ensures within { IfOk result (λ x. x.1.at ≤ self.entry.at + 21) }
    {
        let end = self.front(field)?;
        let (text, behind) = self.text.split_at(end);
        let at = self.at + end;
        match behind {
            [b' ', behind @ ..] => Ok((
                text,
                Rest {
                    at: at + 1,
                    text: behind,
                },
            )),
            _ => Err(misfit(at)),
        }
    }

    // The field that is all of the rest.
    fn last(self, field: Field) -> Result<&'a [u8], Fault>
        requires { self.at ≤ 100 }
        ensures { MatchResult result (λ x. last field self.entry.at self.entry.text.now ≡ Ok x.now) (λ e. last field self.entry.at self.entry.text.now ≡ Err e) }
    {
        let end = self.front(field)?;
        if end == self.text.len() {
            Ok(self.text)
        } else {
            Err(misfit(self.at + end))
        }
    }
}

// The number that digits write.
fn value(digits: &[u8]) -> u32
    requires { Written Number digits.now }
    ensures { result ≡ value digits.now }
{
    digits
        .iter()
        .fold(0, |n, digit| 10 * n + u32::from(*digit - b'0'))
}

// The pack number that digits write, or refusal 5.
fn pack_number(digits: &[u8]) -> Result<u16, Fault>
    requires { Written Number digits.now }
    ensures { result ≡ numbered digits.now }
{
    let n = value(digits);
    if n <= 32767 {
        Ok(n as u16)
    } else {
        Err(Fault::NUMBER_TOO_LARGE)
    }
}

// What an optional field holds: nothing where it is `-`.
fn present(field: &[u8]) -> &[u8]
    ensures { result.now ≡ present field.now }
{
    match field {
        [b'-'] => &[],
        _ => field,
    }
}

// What the line `S TEXT` says, or why it is no transaction; takes the text.
fn store(text: &[u8]) -> Result<Transaction, Fault>
    ensures { result ≡ stored text.now }
{
    let (number, rest) = Rest { at: 2, text }.spaced(Field::Number)?;
    let (code, rest) = rest.spaced(Field::Code)?;
    let (batch, rest) = rest.spaced(Field::Batch)?;
    let expiry = rest.last(Field::Expiry)?;
    let number = pack_number(number)?;
    let label = Label::new(code, present(batch), present(expiry))?;
    Ok(Transaction::Store { number, label })
}

// What the line `T TEXT` says, or why it is no transaction; takes the text.
fn take(text: &[u8]) -> Result<Transaction, Fault>
    ensures { result ≡ taken text.now }
{
    let number = Rest { at: 2, text }.last(Field::Number)?;
    let number = pack_number(number)?;
    Ok(Transaction::Take { number })
}

impl Transaction {
    // What a line says, or why it is no transaction.
    pub fn parse(line: &[u8]) -> Result<Transaction, Fault>
        ensures value { result ≡ meaning line.now }
        ensures misfit { MisfitLaw line.now result }
        ensures shaped { ShapedLaw line.now result }
    {
        match line {
            [b'S', b' ', text @ ..] => store(text),
            [b'T', b' ', text @ ..] => take(text),
            [b'S' | b'T', ..] => Err(misfit(1)),
            _ => Err(misfit(0)),
        }
    }
}

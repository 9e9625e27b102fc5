ghost use Rattle.std.specs.Prelude.{◌≡◌, ◌<◌, ◌≤◌, length};
ghost use Rattle.octets.specs.Zeros.{every};
ghost use Rattle.items.specs.Alphabets.{letter};
ghost use Rattle.items.specs.Calendar.{month_length, is_day};
ghost use Rattle.items.specs.CheckDigit.{check_sum};
ghost use Rattle.items.specs.Lawful.{lawful_code, lawful_batch, lawful_expiry, lawful_ward, two_digits};

use crate::rules::Alphabet;

impl Alphabet {
    fn has(self, byte: u8) -> bool
        ensures { result ≡ letter self byte }
    {
        match self {
            Alphabet::Digits => byte.is_ascii_digit(),
            Alphabet::Alphanumeric => byte.is_ascii_alphanumeric(),
            Alphabet::UpperAlphanumeric => byte.is_ascii_uppercase() || byte.is_ascii_digit(),
        }
    }

    // Whether each byte of the section belongs to the alphabet.
    pub(crate) fn has_all(self, section: &[u8]) -> bool
        ensures { result ≡ every (letter self) section.now }
    {
        section.iter().all(|byte| self.has(*byte))
    }
}

// The digits' sum, weighed 1, 3, 1, 3 and so on from the right.
fn check_sum(code: &[u8]) -> u32
    requires { length code.now ≤ 14 }
    ensures { result ≡ check_sum code.now }
{
    let mut sum = 0;
    // the same sum with the weights 3, 1, 3, 1
    let mut other = 0;
    for digit in code {
        let value = u32::from(digit.saturating_sub(b'0'));
        let next = other + value;
        other = sum + 3 * value;
        sum = next;
    }
    sum
}

// How many days the month has.
fn month_length(year: u16, month: u16) -> u16
    ensures { result ≡ month_length year month }
{
    match month {
        2 if year % 4 == 0 => 29,
        2 => 28,
        4 | 6 | 9 | 11 => 30,
        _ => 31,
    }
}

fn is_day(year: u16, month: u16, day: u16) -> bool
    ensures { result ≡ is_day year month day }
{
    (1..=12).contains(&month) && (1..=month_length(year, month)).contains(&day)
}

// The number of two digits.
fn two_digits(a: u8, b: u8) -> u16
    ensures { result ≡ two_digits a b }
{
    10 * u16::from(a.saturating_sub(b'0')) + u16::from(b.saturating_sub(b'0'))
}

// Whether it is a pack's code.
pub(crate) fn is_code(code: &[u8]) -> bool
    ensures { result ≡ lawful_code code.now }
{
    match code.len() {
        8 | 13 | 14 => Alphabet::Digits.has_all(code) && check_sum(code) % 10 == 0,
        _ => false,
    }
}

// Whether it is a pack's batch.
pub(crate) fn is_batch(batch: &[u8]) -> bool
    ensures { result ≡ lawful_batch batch.now }
{
    batch.len() <= 20 && Alphabet::Alphanumeric.has_all(batch)
}

// Whether it is a pack's expiry.
pub(crate) fn is_expiry(expiry: &[u8]) -> bool
    ensures { result ≡ lawful_expiry expiry.now }
{
    match expiry {
        [] => true,
        [y, z, m, n, d, e] => {
            Alphabet::Digits.has_all(expiry)
                && is_day(two_digits(*y, *z), two_digits(*m, *n), two_digits(*d, *e))
        }
        _ => false,
    }
}

// Whether it is a ward.
pub(crate) fn is_ward(ward: &[u8]) -> bool
    ensures { result ≡ lawful_ward ward.now }
{
    (1..=12).contains(&ward.len()) && Alphabet::UpperAlphanumeric.has_all(ward)
}

ghost use Rattle.std.specs.Prelude.{◌≡◌, ◌+◌, ◌≤◌, ◌++◌, length};
ghost use Rattle.items.specs.BoxForms.{box_form, box_reading, difference_form, ended, with_difference, after_ward};
ghost use Rattle.items.specs.BoxFormLaws.{box_sized, box_round, box_exact};
ghost use Rattle.items.specs.FormBytes.{box_bounded};
ghost use Rattle.std.proofs.Common.{inr, refl};

use crate::forms::{Form, section};
use crate::item_kind::ItemKind;
use crate::kind::Kind;
use crate::ward_box::WardBox;
use octets::all_zero;

// Ward boxes, kind 2. The form has the ward and the weight difference.
impl Kind for WardBox {
    ghost code = { 2 };

    ghost form = { box_form };

    ghost reading = { box_reading };

    ghost known = { inr refl };

    ghost sized = { box_sized };

    ghost bounded = { box_bounded };

    ghost round = { box_round };

    ghost exact = { box_exact };

    fn kind() -> ItemKind {
        ItemKind::WardBox
    }

    #[tactic(auto, unfolding(crate::specs::BoxForms::box_form))]
    fn to_form(&self) -> [u8; 60] {
        let mut form = Form::new();
        form.put_section(self.ward());
        put_difference(&mut form, self.difference);
        form.bytes()
    }

    fn from_form(bytes: &[u8]) -> Option<WardBox> {
        if bytes.len() != 60 {
            return None;
        }
        let (ward, rest) = section(bytes);
        after_ward(ward, rest)
    }
}

// Writes the weight difference after the count of numbers.
fn put_difference(form: &mut Form, difference: Option<i16>)
    requires { length form.old + 3 ≤ 60 }
    ensures { form.new ≡ form.old ++ difference_form difference }
{
    match difference {
        None => form.put(&[0]),
        Some(grams) => {
            let [low, high] = grams.to_le_bytes();
            form.put(&[1, low, high]);
        }
    }
}

// The box whose ward was read, from the bytes behind it.
fn after_ward(ward: &[u8], rest: &[u8]) -> Option<WardBox>
    ensures { result ≡ after_ward ward.now rest.now }
{
    let (count, rest) = rest.split_first()?;
    match *count {
        0 => end(ward, None, rest),
        1 => with_difference(ward, rest),
        _ => None,
    }
}

// The box with the weight difference that the bytes begin with.
fn with_difference(ward: &[u8], bytes: &[u8]) -> Option<WardBox>
    ensures { result ≡ with_difference ward.now bytes.now }
{
    let [low, high, rest @ ..] = bytes else {
        return None;
    };
    end(ward, Some(i16::from_le_bytes([*low, *high])), rest)
}

// The box with this ward and difference, if nothing but zeros stands behind them.
fn end(ward: &[u8], difference: Option<i16>, rest: &[u8]) -> Option<WardBox>
    ensures { result ≡ ended ward.now difference rest.now }
{
    if !all_zero(rest) {
        return None;
    }
    WardBox::new(ward, difference).ok()
}

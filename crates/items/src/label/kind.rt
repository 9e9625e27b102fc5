ghost use Rattle.items.specs.Forms.{label_form, label_reading};
ghost use Rattle.items.specs.LabelFormLaws.{label_sized, label_round, label_exact};
ghost use Rattle.items.specs.FormBytes.{label_bounded};
ghost use Rattle.std.proofs.Common.{inl, refl};

use crate::forms::{Form, section};
use crate::item_kind::ItemKind;
use crate::kind::Kind;
use crate::label::Label;
use octets::all_zero;

// Pack labels, kind 1. The form has code, batch and expiry.
impl Kind for Label {
    ghost code = { 1 };

    ghost form = { label_form };

    ghost reading = { label_reading };

    ghost known = { inl refl };

    ghost sized = { label_sized };

    ghost bounded = { label_bounded };

    ghost round = { label_round };

    ghost exact = { label_exact };

    fn kind() -> ItemKind {
        ItemKind::Label
    }

    #[tactic(auto, using(std::proofs::Common::append_assoc), unfolding(crate::specs::Forms::label_form))]
    fn to_form(&self) -> [u8; 60] {
        let mut form = Form::new();
        form.put_section(self.code());
        form.put_section(self.batch());
        form.put_section(self.expiry());
        form.bytes()
    }

    fn from_form(bytes: &[u8]) -> Option<Label> {
        let (code, rest) = section(bytes);
        let (batch, rest) = section(rest);
        let (expiry, rest) = section(rest);
        if bytes.len() != 60 || !all_zero(rest) {
            return None;
        }
        Label::new(code, batch, expiry).ok()
    }
}

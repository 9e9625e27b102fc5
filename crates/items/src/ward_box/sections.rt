ghost use Rattle.std.specs.Prelude.{◌≡◌};
ghost use Rattle.items.specs.Boxes.{ward_box};
ghost use Rattle.items.specs.Lawful.{lawful_difference};
ghost use Rattle.items.specs.Texts.{chars};

use crate::rules::is_ward;
use crate::text::Text;
use crate::ward_box::WardBox;
use fault::Fault;

fn is_difference(difference: Option<i16>) -> bool
    ensures { result ≡ lawful_difference difference }
{
    difference.is_none_or(|grams| (-30000..=30000).contains(&grams))
}

impl WardBox {
    // The box with these sections, or the first of them that is unlawful.
    #[tactic(auto, unfolding(crate::specs::Boxes::ward_box))]
    pub fn new(ward: &[u8], difference: Option<i16>) -> Result<WardBox, Fault>
        ensures { result ≡ ward_box ward.now difference }
    {
        if !is_ward(ward) {
            return Err(Fault::unlawful(1));
        }
        if !is_difference(difference) {
            return Err(Fault::unlawful(2));
        }
        let ward = Text::short(ward);
        Ok(WardBox { ward, difference })
    }

    // The ward.
    pub fn ward(&self) -> &[u8]
        ensures { result.now ≡ chars self.now.ward }
    {
        self.ward.as_bytes()
    }

    // The weight difference in grams.
    pub fn difference(&self) -> Option<i16>
        ensures { result ≡ self.now.difference }
    {
        self.difference
    }
}

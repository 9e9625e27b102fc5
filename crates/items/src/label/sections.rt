ghost use Rattle.std.specs.Prelude.{◌≡◌};
ghost use Rattle.items.specs.Texts.{chars};
ghost use Rattle.items.specs.Labels.{label};

use crate::label::Label;
use crate::rules::{is_batch, is_code, is_expiry};
use crate::text::Text;
use fault::Fault;

impl Label {
    // The label with these sections, or the first of them that is unlawful.
    #[tactic(auto, unfolding(crate::specs::Labels::label))]
    pub fn new(code: &[u8], batch: &[u8], expiry: &[u8]) -> Result<Label, Fault>
        ensures { result ≡ label code.now batch.now expiry.now }
    {
        if !is_code(code) {
            return Err(Fault::unlawful(1));
        }
        if !is_batch(batch) {
            return Err(Fault::unlawful(2));
        }
        if !is_expiry(expiry) {
            return Err(Fault::unlawful(3));
        }
        let code = Text::short(code);
        let batch = Text::short(batch);
        let expiry = Text::short(expiry);
        Ok(Label {
            code,
            batch,
            expiry,
        })
    }

    // The digits of the code.
    pub fn code(&self) -> &[u8]
        ensures { result.now ≡ chars self.now.code }
    {
        self.code.as_bytes()
    }

    // The batch, empty where there is none.
    pub fn batch(&self) -> &[u8]
        ensures { result.now ≡ chars self.now.batch }
    {
        self.batch.as_bytes()
    }

    // The day of expiry as YYMMDD, empty where there is none.
    pub fn expiry(&self) -> &[u8]
        ensures { result.now ≡ chars self.now.expiry }
    {
        self.expiry.as_bytes()
    }
}

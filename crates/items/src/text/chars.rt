ghost use Rattle.std.specs.Prelude.{◌≡◌, ◌≤◌, length};
ghost use Rattle.items.specs.Texts.{chars, text, text_of};

use crate::text::Text;
use octets::array_at;

impl<const N: usize> Text<N> {
    // The characters.
    pub fn as_bytes(&self) -> &[u8]
        ensures { result.now ≡ chars self.now }
    {
        &self.bytes[..self.len]
    }

    // The text of characters that are few enough.
    pub(crate) fn short(characters: &[u8]) -> Text<N>
        requires { length characters.now ≤ N }
        ensures { result ≡ text N characters.now }
    {
        let len = characters.len();
        let bytes = array_at(characters, 0);
        Text { len, bytes }
    }

    // The text of these characters, unless they are more than N.
    pub fn new(characters: &[u8]) -> Option<Text<N>>
        ensures { result ≡ text_of N characters.now }
    {
        if characters.len() > N {
            return None;
        }
        Some(Text::short(characters))
    }
}

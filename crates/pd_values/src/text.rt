//! A text whose contract is the list of its bytes.
ghost use Rattle.std.specs.Prelude.{◌≡◌, IfOk, string_bytes};

use std::alloc::AllocError;
use std::marker::Model;

/// UTF-8 text that contracts see as the list of its bytes.
#[derive(Drop)]
pub struct Text {
    chars: String,
}

impl Model for Text {
    ghost use Rattle.std.specs.Prelude.{List, ℕ, string_bytes};

    ghost Value = { List ℕ };

    ghost view = { λ t. string_bytes t.chars };
}

impl Text {
    /// The text of these characters. It takes no memory.
    pub fn of(chars: String) -> Text
        ensures { result ≡ string_bytes chars }
    {
        Text { chars }
    }

    /// The characters of the text.
    pub fn as_str(&self) -> &str
        ensures { result.now ≡ self.now }
    {
        self.chars.as_str()
    }

    /// A second text with the same bytes. Where memory runs out it answers `AllocError`.
    pub fn copy(&self) -> Result<Text, AllocError>
        ensures { IfOk result (λ t. t ≡ self.now) }
    {
        Ok(Text {
            chars: self.chars.clone()?,
        })
    }
}

//! Text that contracts see as its bytes.
use std::alloc::{AllocError, Global};
use std::marker::Model;

/// A text. A contract sees its bytes.
#[derive(Debug, Drop)]
pub struct Text {
    text: String,
}

impl Model for Text {
    ghost use Rattle.std.specs.Prelude.{List, ℕ, string_bytes};

    ghost Value = { List ℕ };

    ghost view = { λ t. string_bytes t.text };
}

impl Text {
    ghost use Rattle.std.specs.Prelude.{◌≡◌, IfOk, string_bytes};

    /// Keeps the text that it is given. It takes no memory.
    pub fn of(text: String) -> Text
        ensures { result ≡ string_bytes text }
    {
        Text { text }
    }

    /// The text. It takes no memory.
    pub fn text(&self) -> &str
        ensures { result.now ≡ self.now }
    {
        self.text.as_str()
    }

    /// A text of the same bytes. An error only where memory was refused.
    pub fn copied(&self, alloc: Global) -> Result<Text, AllocError>
        ensures { IfOk result (λ copy. copy ≡ self.now) }
    {
        Ok(Text::of(String::from_str(alloc, self.text())?))
    }
}

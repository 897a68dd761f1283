//! User names.

ghost use Rattle.std.specs.Prelude.{◌≡◌, ◌≤◌, nat_le, if◌then◌else◌, Some, None, length};
ghost use Rattle.cred_table.specs.Rows.{cut};

use crate::truncate::cut_name;
use arrayvec::ArrayString;
use std::marker::Model;

/// A user name as stored in a row: at most 64 bytes of UTF-8. Two names are equal if their texts are.
#[derive(Clone, Debug, Default, Drop)]
pub struct Name {
    text: ArrayString<64>,
}

impl Model for Name {
    ghost use Rattle.std.specs.Prelude.{List, ℕ};

    ghost Value = { List ℕ };

    ghost view = { λ n. n.text.bytes };
}

impl Name {
    /// Creates a name, or returns `None` if the text has more than 64 bytes.
    pub fn new(text: &str) -> Option<Self>
        ensures { result ≡ (if nat_le (length text.now) 64 then Some text.now else None) }
    {
        match ArrayString::from(text) {
            Ok(text) => Some(Name { text }),
            Err(_) => None,
        }
    }

    /// Creates a name from a text, truncated to 64 bytes at a character boundary.
    pub fn cut(whole: &str) -> Self
        ensures { result ≡ cut whole.now }
    {
        let mut text = ArrayString::new();
        text.push_str(cut_name(whole));
        Name { text }
    }

    /// Returns the text.
    pub fn as_str(&self) -> &str
        ensures text { result.now ≡ self.now }
        ensures short { length result.now ≤ 64 }
    {
        self.text.as_str()
    }

    /// Copies the name.
    pub(crate) fn copy(&self) -> Self
        ensures { result ≡ self.now }
    {
        Name { text: self.text }
    }
}

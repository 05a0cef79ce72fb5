//! Addresses of interfaces and feeds.
ghost use Rattle.std.specs.Prelude.{◌≡◌, true, Some, None, if◌then◌else◌, IsUtf8};
ghost use Rattle.zi_words.specs.Forms.{is_address};

use crate::arguments::is_address;
use std::marker::Model;
use zi_text::Text;

/// An address, which contracts see as its bytes in UTF-8 (RFC 3629): it begins with `http://`, `https://` or `/`, and each of its
/// characters is one that XML 1.0 can carry (production 2, Char) and no tab, LF or CR.
#[derive(Drop)]
pub struct Address {
    text: Text,
}

impl Model for Address {
    ghost use Rattle.std.specs.Prelude.{◌≡◌, true, List, ℕ};
    ghost use Rattle.zi_words.specs.Forms.{is_address};

    ghost Value = { List ℕ };

    ghost view = { λ a. a.text };

    ghost invariant = { λ a. is_address a.text ≡ true };
}

// The same text, whose bytes are in UTF-8.
fn in_utf8(text: &str) -> &str
    ensures same { result.now ≡ text.now }
    ensures utf8 { IsUtf8 text.now }
{
    text
}

impl Address {
    /// The address that a text is; None where it is none.
    pub fn new(text: Text) -> Option<Address>
        ensures { result ≡ (if is_address text then Some text else None) }
    {
        if is_address(text.as_str()) {
            Some(Address { text })
        } else {
            None
        }
    }

    /// The address that a text is.
    pub(crate) fn of(text: Text) -> Address
        requires { is_address text ≡ true }
        ensures { result ≡ text }
    {
        Address { text }
    }

    /// Its text, lent.
    pub fn as_str(&self) -> &str
        ensures text { result.now ≡ self.now }
        ensures address { is_address self.now ≡ true }
        ensures utf8 { IsUtf8 self.now }
    {
        in_utf8(self.text.as_str())
    }

    /// Its text.
    pub fn into_text(self) -> Text
        ensures text { result ≡ self }
        ensures address { is_address self ≡ true }
        ensures utf8 { IsUtf8 self }
    {
        let _text = self.as_str();
        let Address { text } = self;
        text
    }
}

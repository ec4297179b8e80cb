//! The token that a notification is sent with.
ghost use Rattle.std.specs.Prelude.{◌≡◌, IsTrue};
ghost use Rattle.std.specs.Str.{bytes_eq};
ghost use Rattle.std.specs.List.{list_all};
ghost use Rattle.std.specs.Cmp.{partial_equiv_from_equiv};
ghost use Rattle.std.specs.Cmp.Lexicographic.{nat_list_eq_equiv};
ghost use Rattle.adr_text.specs.Faults.{Finds};
ghost use Rattle.adr_subscription.specs.Tokens.{is_token_byte, is_token, token_of};

use adr_text::Fault;
use std::alloc::Global;
use std::marker::Model;

/// A bearer token: 1 to 1,024 characters from `!` to `~` (OpenADR 3.0, bearerToken).
#[derive(Clone)]
pub struct BearerToken {
    text: String,
}

impl Drop for BearerToken {
    fn drop(self) {
        let BearerToken { text: _ } = self;
    }
}

impl Model for BearerToken {
    ghost use Rattle.std.specs.Prelude.{List, ℕ, IsTrue, string_bytes};
    ghost use Rattle.adr_subscription.specs.Tokens.{is_token};

    ghost Value = { List ℕ };

    ghost view = { λ a. string_bytes a.text };

    ghost invariant = { λ a. IsTrue (is_token (string_bytes a.text)) };
}

fn is_token_byte(b: u8) -> bool
    ensures { result ≡ is_token_byte b }
{
    b'!' <= b && b <= b'~'
}

fn all_token_bytes(text: &str) -> bool
    ensures { result ≡ list_all is_token_byte text.now }
{
    text.as_bytes().iter().all(|b| is_token_byte(*b))
}

fn is_token(text: &str) -> bool
    ensures { result ≡ is_token text.now }
{
    let len = text.len();
    1 <= len && len <= 1024 && all_token_bytes(text)
}

impl BearerToken {
    /// The token that the text is.
    pub fn new(alloc: Global, text: &str) -> Result<BearerToken, Fault>
        ensures { Finds (λ token. token) result (token_of text.now) }
    {
        if !is_token(text) {
            return Err(Fault::BadShape);
        }
        Ok(BearerToken {
            text: String::from_str(alloc, text)?,
        })
    }

    /// Its text.
    pub fn as_str(&self) -> &str
        ensures text { result.now ≡ self.now }
        ensures valid { IsTrue (is_token self.now) }
    {
        self.text.as_str()
    }
}

impl PartialEq for BearerToken {
    ghost eq = { bytes_eq };

    ghost laws = { partial_equiv_from_equiv nat_list_eq_equiv };

    fn eq(&self, other: &BearerToken) -> bool {
        self.text.as_str() == other.text.as_str()
    }
}

impl Eq for BearerToken {
    ghost laws = { nat_list_eq_equiv };
}

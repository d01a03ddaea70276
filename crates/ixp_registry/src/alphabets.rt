//! The alphabets and lengths of texts.
ghost use Rattle.std.specs.Prelude.{◌≡◌};
ghost use Rattle.std.specs.List.{list_all};
ghost use Rattle.std.specs.Str.{is_utf8};
ghost use Rattle.ixp_registry.specs.Alphabets.{
  has_length,
  is_macro_byte,
  is_secret_byte,
  is_handle_byte,
  is_letter_or_digit,
  begins_small,
  is_label,
  is_note,
  is_macro,
  is_session_secret,
  is_key_secret,
  is_handle,
};

use std::str::from_utf8;

fn has_length(least: usize, most: usize, text: &[u8]) -> bool
    ensures { result ≡ has_length least most text.now }
{
    least <= text.len() && text.len() <= most
}

#[tactic(auto, using(crate::proofs::Utf8::is_utf8_so, crate::proofs::Utf8::is_utf8_not))]
fn is_utf8(text: &[u8]) -> bool
    ensures { result ≡ is_utf8 text.now }
{
    match from_utf8(text) {
        Ok(_) => true,
        Err(_) => false,
    }
}

/// Whether the text names a member, a contact, a switch, a port or a VLAN.
pub fn is_label(text: &[u8]) -> bool
    ensures { result ≡ is_label text.now }
{
    has_length(1, 128, text) && is_utf8(text)
}

/// Whether the text is a short name, a mail address or a role.
pub fn is_note(text: &[u8]) -> bool
    ensures { result ≡ is_note text.now }
{
    has_length(0, 128, text) && is_utf8(text)
}

fn is_macro_byte(byte: u8) -> bool
    ensures { result ≡ is_macro_byte byte }
{
    byte.is_ascii_alphanumeric() || byte == b':' || byte == b'_' || byte == b'-'
}

fn are_macro_bytes(text: &[u8]) -> bool
    ensures { result ≡ list_all is_macro_byte text.now }
{
    text.iter().all(|b| is_macro_byte(*b))
}

/// Whether the text is an AS-SET or an AS.
pub fn is_macro(text: &[u8]) -> bool
    ensures { result ≡ is_macro text.now }
{
    has_length(0, 64, text) && are_macro_bytes(text)
}

fn is_secret_byte(byte: u8) -> bool
    ensures { result ≡ is_secret_byte byte }
{
    byte.is_ascii_alphanumeric() || byte == b'.' || byte == b'_' || byte == b':' || byte == b'/'
}

fn are_secret_bytes(text: &[u8]) -> bool
    ensures { result ≡ list_all is_secret_byte text.now }
{
    text.iter().all(|b| is_secret_byte(*b))
}

/// Whether the text is the secret of a BGP session.
pub fn is_session_secret(text: &[u8]) -> bool
    ensures { result ≡ is_session_secret text.now }
{
    has_length(0, 64, text) && are_secret_bytes(text)
}

fn are_letters_or_digits(text: &[u8]) -> bool
    ensures { result ≡ list_all is_letter_or_digit text.now }
{
    text.iter().all(|b| b.is_ascii_alphanumeric())
}

/// Whether the text is the secret of an API key.
pub fn is_key_secret(text: &[u8]) -> bool
    ensures { result ≡ is_key_secret text.now }
{
    has_length(16, 64, text) && are_letters_or_digits(text)
}

fn begins_small(text: &[u8]) -> bool
    ensures { result ≡ begins_small text.now }
{
    match text.first() {
        Some(byte) => byte.is_ascii_lowercase(),
        None => false,
    }
}

fn is_handle_byte(byte: u8) -> bool
    ensures { result ≡ is_handle_byte byte }
{
    byte.is_ascii_lowercase() || byte.is_ascii_digit() || byte == b'_' || byte == b'-'
}

fn are_handle_bytes(text: &[u8]) -> bool
    ensures { result ≡ list_all is_handle_byte text.now }
{
    text.iter().all(|b| is_handle_byte(*b))
}

/// Whether the text is the name of a route server.
pub fn is_handle(text: &[u8]) -> bool
    ensures { result ≡ is_handle text.now }
{
    has_length(1, 32, text) && begins_small(text) && are_handle_bytes(text)
}

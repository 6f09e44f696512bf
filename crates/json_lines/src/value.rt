//! The values of fields.

ghost use Rattle.std.specs.Prelude.{◌≡◌, ◌∷◌, ◌++◌, [], ℕ, List, OnOk};
ghost use Rattle.json.specs.Json.{boolean};
ghost use Rattle.json_lines.specs.Field.{Field, base64_field, digits_field, field, fields_tokens};
ghost use Rattle.json_lines.specs.Field.{number_field, text_field, word_field};

use crate::line_writer::LineWriter;
use base64::engine::general_purpose::STANDARD;
use itoa::Buffer;
use json::Token;
use std::alloc::{AllocError, Global};
use std::str::from_utf8;

/// A value of a field.
pub trait Value {
    ghost field: { List ℕ → Self → Field };

    /// Writes the field with this name.
    fn put_as(&self, alloc: Global, name: &str, out: &mut LineWriter) -> Result<(), AllocError>
        ensures { OnOk result (out.new
            ≡ out.old ++ fields_tokens (field name.now self.now ∷ [])) };
}

impl<'a> Value for &'a str {
    ghost field = { λ name word. word_field name word.now };

    #[tactic(auto, unfolding(crate::specs::Field::fields_tokens))]
    fn put_as(&self, _: Global, name: &str, out: &mut LineWriter) -> Result<(), AllocError> {
        out.token(Token::Key(name))?;
        out.token(Token::String(self))
    }
}

impl Value for u64 {
    ghost field = { number_field };

    #[tactic(auto, unfolding(crate::specs::Field::fields_tokens))]
    fn put_as(&self, _: Global, name: &str, out: &mut LineWriter) -> Result<(), AllocError> {
        out.token(Token::Key(name))?;
        out.number(*self)
    }
}

impl Value for bool {
    ghost field = { λ name holds. field name (boolean holds) };

    #[tactic(auto, unfolding(crate::specs::Field::fields_tokens))]
    fn put_as(&self, _: Global, name: &str, out: &mut LineWriter) -> Result<(), AllocError> {
        out.token(Token::Key(name))?;
        out.token(Token::Bool(*self))
    }
}

/// The digits of a number as a text, because the number may be too large for a reader's numbers.
#[derive(Drop)]
pub struct Digits(pub u128);

impl Value for Digits {
    ghost field = { λ name digits. digits_field name digits.0 };

    fn put_as(&self, alloc: Global, name: &str, out: &mut LineWriter) -> Result<(), AllocError> {
        Buffer::new().format(self.0).put_as(alloc, name, out)
    }
}

/// Bytes: as text if they are UTF-8, otherwise in base64 (RFC 4648 section 4), with `_base64`
/// after the name.
#[derive(Drop)]
pub struct Text<'a>(pub &'a [u8]);

impl<'a> Value for Text<'a> {
    ghost field = { λ name text. text_field name text.0.now };

    fn put_as(&self, alloc: Global, name: &str, out: &mut LineWriter) -> Result<(), AllocError> {
        match from_utf8(self.0) {
            Ok(text) => text.put_as(alloc, name, out),
            Err(_) => put_base64(alloc, name, self.0, out),
        }
    }
}

// Writes a field with bytes in base64.
fn put_base64(
    alloc: Global,
    name: &str,
    bytes: &[u8],
    out: &mut LineWriter,
) -> Result<(), AllocError>
    ensures { OnOk result (out.new
        ≡ out.old ++ fields_tokens (base64_field name.now bytes.now ∷ [])) }
{
    let mut full = String::from_str(alloc, name)?;
    full.push_str("_base64")?;
    let text = STANDARD.encode(alloc, bytes)?;
    text.as_str().put_as(alloc, full.as_str(), out)
}

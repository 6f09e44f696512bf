//! Objects and arrays as values.

ghost use Rattle.std.specs.Prelude.{◌≡◌, ◌∷◌, ◌++◌, [], List, OnOk, decimal};
ghost use Rattle.json.specs.Json.{Json, string};
ghost use Rattle.json_lines.specs.Field.{array_of, field, object_of, values_tokens};

use crate::fields::{Fields, Then};
use crate::line_writer::LineWriter;
use crate::value::{Digits, Value};
use itoa::Buffer;
use json::Token;
use std::alloc::{AllocError, Global};

/// Values of an array, in their order.
pub trait Values {
    ghost values: { Self → List Json };

    /// Writes the values.
    fn put_values(&self, alloc: Global, out: &mut LineWriter) -> Result<(), AllocError>
        ensures { OnOk result (out.new ≡ out.old ++ values_tokens (values self.now)) };
}

impl<A: Values, B: Values> Values for Then<A, B> {
    ghost values = { λ joined. A.values joined.first ++ B.values joined.rest };

    fn put_values(&self, alloc: Global, out: &mut LineWriter) -> Result<(), AllocError> {
        self.first.put_values(alloc, out)?;
        self.rest.put_values(alloc, out)?;
        Ok(())
    }
}

impl Values for Digits {
    ghost values = { λ digits. string (decimal digits.0) ∷ [] };

    #[tactic(auto, unfolding(crate::specs::Field::values_tokens))]
    fn put_values(&self, _: Global, out: &mut LineWriter) -> Result<(), AllocError> {
        out.token(Token::String(Buffer::new().format(self.0)))
    }
}

/// An object with these fields.
#[derive(Drop)]
pub struct Object<F>(pub F);

impl<F: Fields> Values for Object<F> {
    ghost values = { λ object. object_of (F.fields object.0) ∷ [] };

    fn put_values(&self, alloc: Global, out: &mut LineWriter) -> Result<(), AllocError> {
        out.token(Token::BeginObject)?;
        self.0.put_fields(alloc, out)?;
        out.token(Token::EndObject)?;
        Ok(())
    }
}

impl<F: Fields> Value for Object<F> {
    ghost field = { λ name object. field name (object_of (F.fields object.0)) };

    fn put_as(&self, alloc: Global, name: &str, out: &mut LineWriter) -> Result<(), AllocError> {
        out.token(Token::Key(name))?;
        self.put_values(alloc, out)?;
        Ok(())
    }
}

/// An array of these values.
#[derive(Drop)]
pub struct Array<V>(pub V);

impl<V: Values> Value for Array<V> {
    ghost field = { λ name array. field name (array_of (V.values array.0)) };

    fn put_as(&self, alloc: Global, name: &str, out: &mut LineWriter) -> Result<(), AllocError> {
        out.token(Token::Key(name))?;
        out.token(Token::BeginArray)?;
        self.0.put_values(alloc, out)?;
        out.token(Token::EndArray)?;
        Ok(())
    }
}

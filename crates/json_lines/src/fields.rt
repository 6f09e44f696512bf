//! Fields, one after the other.

ghost use Rattle.std.specs.Prelude.{◌≡◌, ◌∷◌, ◌++◌, [], List, OnOk};
ghost use Rattle.json_lines.specs.Field.{Field, fields_tokens};

use crate::line_writer::LineWriter;
use crate::value::Value;
use std::alloc::{AllocError, Global};

/// Fields of an object, in their order.
pub trait Fields {
    ghost fields: { Self → List Field };

    /// Writes the fields.
    fn put_fields(&self, alloc: Global, out: &mut LineWriter) -> Result<(), AllocError>
        ensures { OnOk result (out.new ≡ out.old ++ fields_tokens (fields self.now)) };
}

/// A field: its name and its value.
#[derive(Drop)]
pub struct Named<'a, V>(pub &'a str, pub V);

impl<'a, V: Value> Fields for Named<'a, V> {
    ghost fields = { λ one. V.field one.0.now one.1 ∷ [] };

    fn put_fields(&self, alloc: Global, out: &mut LineWriter) -> Result<(), AllocError> {
        self.1.put_as(alloc, self.0, out)
    }
}

/// Fields or values of an array, and those behind them.
#[derive(Drop)]
pub struct Then<A, B> {
    pub first: A,
    pub rest: B,
}

impl<A: Fields, B: Fields> Fields for Then<A, B> {
    ghost fields = { λ joined. A.fields joined.first ++ B.fields joined.rest };

    fn put_fields(&self, alloc: Global, out: &mut LineWriter) -> Result<(), AllocError> {
        self.first.put_fields(alloc, out)?;
        self.rest.put_fields(alloc, out)?;
        Ok(())
    }
}

/// The fields as one value: each a name and a value, or a value that has fields.
#[macro_export]
macro_rules! fields {
    ($name:literal : $value:expr) => {
        $crate::Named($name, $value)
    };
    ($fields:expr) => {
        $fields
    };
    ($name:literal : $value:expr, $($rest:tt)+) => {
        $crate::Then { first: $crate::Named($name, $value), rest: $crate::fields!($($rest)+) }
    };
    ($fields:expr, $($rest:tt)+) => {
        $crate::Then { first: $fields, rest: $crate::fields!($($rest)+) }
    };
}

/// Writes the fields.
#[macro_export]
macro_rules! put_fields {
    ($alloc:expr, $out:expr; $($fields:tt)+) => {
        $crate::Fields::put_fields(&$crate::fields!($($fields)+), $alloc, $out)
    };
}

/// Writes an object with these fields, as a value of an array.
#[macro_export]
macro_rules! put_object {
    ($alloc:expr, $out:expr; $($fields:tt)+) => {
        $crate::Values::put_values(&$crate::Object($crate::fields!($($fields)+)), $alloc, $out)
    };
}

/// Makes the line of an object with these fields.
#[macro_export]
macro_rules! object {
    ($line:expr; $($fields:tt)+) => {
        $crate::write_object($line, $crate::fields!($($fields)+))
    };
}

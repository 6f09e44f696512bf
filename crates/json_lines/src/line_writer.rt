//! A JSON text on a line of its own.

ghost use Rattle.std.specs.Prelude.{◌≡◌, ◌∷◌, ◌++◌, [], IfOk, OnOk, decimal};
ghost use Rattle.json.specs.Print.{IsPrintable, print};
ghost use Rattle.json.specs.Reads.{token_of};
ghost use Rattle.json.specs.Token.{number};
ghost use Rattle.json_lines.specs.Controls.{escaped_controls};
ghost use Rattle.json_lines.specs.Field.{json_line, object_of};

use crate::escapes::without_controls;
use crate::fields::Fields;
use crate::nested::{Object, Values};
use json::{Token, Writer};
use std::alloc::{AllocError, Global};
use std::marker::Model;
use std::mem;

/// A JSON text that is written token by token. Contracts state the tokens.
#[derive(Drop)]
pub struct LineWriter {
    out: Writer,
}

impl Model for LineWriter {
    ghost use Rattle.std.specs.Prelude.{◌≡◌, [], List};
    ghost use Rattle.json.specs.Token.{Token as SpecToken, tokens_code};

    ghost Value = { List SpecToken };

    ghost coded = { tokens_code };

    ghost view = { λ line. line.out.tokens };

    ghost invariant = { λ line. line.out.before ≡ [] };
}

impl LineWriter {
    // A text without tokens, over the bytes of a line.
    fn over(mut line: Vec<u8>) -> LineWriter
        ensures { result ≡ [] }
    {
        line.clear();
        LineWriter {
            out: Writer::new(line),
        }
    }

    /// Writes a token. The caller must follow the grammar.
    pub(crate) fn token(&mut self, token: Token<'_>) -> Result<(), AllocError>
        requires { IsPrintable (token_of token) }
        ensures { OnOk result (self.new ≡ self.old ++ token_of token.entry ∷ []) }
    {
        self.out.token(token)
    }

    /// Writes a number.
    pub(crate) fn number(&mut self, count: u64) -> Result<(), AllocError>
        ensures { OnOk result (self.new ≡ self.old ++ number (decimal count) ∷ []) }
    {
        self.out.u64(count)
    }

    // The text, with escapes for control characters and a line feed at its end.
    fn into_line(self) -> Result<Vec<u8>, AllocError>
        ensures { IfOk result (λ line. line.items ≡ escaped_controls (print self) ++ 10 ∷ []) }
    {
        let mut line = without_controls(self.out.into_inner())?;
        line.push(b'\n')?;
        Ok(line)
    }
}

/// Replaces the content of `line` by the line of an object with these fields.
pub fn write_object<F: Fields + Drop>(line: &mut Vec<u8>, fields: F) -> Result<(), AllocError>
    ensures { OnOk result (line.new.items ≡ json_line (object_of (F.fields fields))) }
{
    let alloc = *line.allocator();
    let mut out = LineWriter::over(mem::replace(line, Vec::new(alloc)));
    Object(fields).put_values(alloc, &mut out)?;
    *line = out.into_line()?;
    Ok(())
}

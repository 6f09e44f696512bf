//! The texts of a list that is made.

use run_faults::Cause;
use ssh_wire::Bytes;
use std::marker::Model;

/// The name of a text, whether it is a regular file, and its bytes or why there are none.
#[derive(Drop)]
pub struct Text<'a> {
    /// The name, as it is given on the command line.
    pub name: &'a str,
    /// Whether it is a regular file.
    pub is_file: bool,
    /// The bytes, or why there are none.
    pub content: Result<Bytes, Cause>,
}

impl<'a> Model for Text<'a> {
    ghost use Rattle.text_run.specs.Making.{Text};

    ghost Value = { Text };

    ghost view = { λ text. record {
      name = text.name.now;
      is_file = text.is_file;
      content = text.content;
    } };
}

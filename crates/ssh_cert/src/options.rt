//! The critical options and the extensions of a certificate.

ghost use Rattle.std.specs.Prelude.{◌≡◌};
ghost use Rattle.ssh_cert.specs.Options.{options_of};

use crate::strings::{Strings, count_of, strings_in};
use std::marker::Model;

/// A critical option or an extension of a certificate: its name and its data. Neither need be text.
#[derive(Drop)]
pub struct CertOption<'a> {
    /// The name.
    pub name: &'a [u8],
    /// The data. For an option with a text it is the string of the text; otherwise it is usually
    /// empty.
    pub data: &'a [u8],
}

impl<'a> Model for CertOption<'a> {
    ghost use Rattle.ssh_cert.specs.Options.{CertOption};

    ghost Value = { CertOption };

    ghost view = { λ option. record { name = option.name.now; content = option.data.now } };
}

/// The critical options or the extensions of a certificate: an iterator that borrows each from the
/// blob, in order.
#[derive(Drop)]
pub struct Options<'a> {
    parts: Strings<'a>,
}

impl<'a> Model for Options<'a> {
    ghost use Rattle.std.specs.Prelude.{List};
    ghost use Rattle.ssh_cert.specs.Options.{CertOption, ArePairs, pairs_in};

    ghost Value = { List CertOption };

    ghost view = { λ options. pairs_in options.parts };

    ghost invariant = { λ options. ArePairs options.parts };
}

impl<'a> Iterator for Options<'a> {
    ghost use Rattle.std.specs.Iterator.{YieldsFirst, item_count};

    type Item = CertOption<'a>;

    ghost next_gives = { YieldsFirst (λ options. options) };

    ghost remaining = { item_count (λ options. options) };

    fn next(&mut self) -> Option<CertOption<'a>> {
        let name = self.parts.next()?;
        let data = self.parts.next()?;
        Some(CertOption { name, data })
    }
}

impl<'a> Options<'a> {
    // Another iterator over the options, from the current one on.
    pub(crate) fn again(&self) -> Options<'a>
        ensures { result ≡ self.now }
    {
        Options {
            parts: self.parts.again(),
        }
    }
}

/// The options whose strings fill the bytes, if the bytes are such strings.
pub fn options_in<'a>(bytes: &'a [u8]) -> Option<Options<'a>>
    ensures { result ≡ options_of bytes.entry.now }
{
    if count_of(bytes)? % 2 == 1 {
        return None;
    }
    Some(Options {
        parts: strings_in(bytes)?,
    })
}

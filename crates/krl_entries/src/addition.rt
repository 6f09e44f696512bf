//! Additions to revocations.

ghost use Rattle.std.specs.Prelude.{◌↔◌, IsTrue};
ghost use Rattle.krl_entries.specs.Addition.{IsKey};

use krl_types::ItemKind;
use serial_set::Span;

/// An addition by one call. It is under an authority if it is one of certificates.
#[derive(Clone, Copy)]
pub enum Addition<'a> {
    /// Certificates by their serials, as spans that lie near each other.
    Serials(&'a [Span]),
    /// Certificates by a key ID, or a key by its blob or a hash of it.
    Item(ItemKind, &'a [u8]),
}

impl<'a> Addition<'a> {
    // Whether it is a key, which is under no authority.
    #[inline(always)]
    pub(crate) fn is_key(self) -> bool
        ensures { IsTrue result ↔ IsKey self.entry }
    {
        match self {
            Addition::Serials(_) => false,
            Addition::Item(kind, _) => !matches!(kind, ItemKind::Id),
        }
    }
}

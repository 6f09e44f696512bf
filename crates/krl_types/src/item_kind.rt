//! The kinds of items.

ghost use Rattle.std.specs.Prelude.{◌≡◌};
ghost use Rattle.krl_types.specs.Item.{item_size};

/// The kind of an item, which is an entry of bytes: a key, by its blob or a hash of it, or a key
/// ID.
#[derive(Clone, Copy)]
pub enum ItemKind {
    Key,
    Sha1,
    Sha256,
    Id,
}

impl ItemKind {
    /// The size in bytes of an item whose length field contains `size`.
    #[inline(always)]
    pub fn size(self, size: u32) -> u32
        ensures { result ≡ item_size self size }
    {
        match self {
            ItemKind::Key | ItemKind::Id => size,
            ItemKind::Sha1 => 20,
            ItemKind::Sha256 => 32,
        }
    }
}

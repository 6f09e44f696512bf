//! What a line names, as it is kept under a number.

ghost use Rattle.std.specs.Prelude.{◌≡◌, IfOk};
ghost use Rattle.krl_entries.specs.Named.{item_name};
ghost use Rattle.krl_entries.specs.Tested.{entry_names};
ghost use Rattle.krl_types.specs.Item.{item_entry};
ghost use Rattle.text_index.specs.Postings.{entry_of, posting_with, sought_name};

use krl_types::ItemKind;
use serial_set::Span;
use ssh_wire::Bytes;
use std::alloc::{AllocError, Global};

/// The subject of a line, apart from the authority.
#[derive(Drop)]
pub enum What {
    /// Serial numbers.
    Serials(Span),
    /// An item with its bytes.
    Item(ItemKind, Bytes),
}

/// A line with what it names.
#[derive(Drop)]
pub struct Posting {
    /// The number of the line among all lines, counted from 0.
    pub line: usize,
    /// The authority, empty for all of them and for keys.
    pub authority: Bytes,
    /// The subject of the line.
    pub what: What,
}

/// The name that is looked up.
#[derive(Clone, Copy)]
pub enum Sought<'a> {
    /// A serial number under an authority.
    Serial(&'a [u8], u64),
    /// An item: its kind, the authority of a key ID, and its bytes.
    Item(ItemKind, &'a [u8], &'a [u8]),
}

impl Posting {
    // A line with what it names.
    pub(crate) fn new(
        alloc: Global,
        line: usize,
        authority: &[u8],
        what: What,
    ) -> Result<Posting, AllocError>
        ensures { IfOk result (λ posting. posting ≡ posting_with line authority.now what) }
    {
        let authority = Bytes::from_vec(Vec::from_slice(alloc, authority)?);
        Ok(Posting {
            line,
            authority,
            what,
        })
    }

    // Whether the line has the name that is looked up.
    pub(crate) fn names(&self, sought: Sought<'_>) -> bool
        ensures { result ≡ entry_names (entry_of self.now) (sought_name sought.entry) }
    {
        let own = self.authority.as_slice();
        match (&self.what, sought) {
            (What::Serials(span), Sought::Serial(authority, serial)) => {
                own == authority && 0 < serial && span.lo <= serial && serial <= span.hi
            }
            (What::Item(kind, item), Sought::Item(sought, authority, other)) => {
                is_item(*kind, own, item.as_slice(), sought, authority, other)
            }
            _ => false,
        }
    }
}

// Whether two items are one. Only a key ID has an authority.
fn is_item(
    kind: ItemKind,
    own: &[u8],
    item: &[u8],
    sought: ItemKind,
    authority: &[u8],
    other: &[u8],
) -> bool
    ensures { result ≡ entry_names (item_entry kind own.now item.now)
        (item_name sought authority.now other.now) }
{
    match (kind, sought) {
        (ItemKind::Id, ItemKind::Id) => own == authority && item == other,
        (ItemKind::Key, ItemKind::Key)
        | (ItemKind::Sha1, ItemKind::Sha1)
        | (ItemKind::Sha256, ItemKind::Sha256) => item == other,
        _ => false,
    }
}

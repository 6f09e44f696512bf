//! Continuing over another store.

ghost use Rattle.std.specs.Prelude.{◌≡◌, ◌≢◌, [], All, IfOk, List, None, OnErr, OnOk, map};
ghost use Rattle.krl_core.specs.FieldStore.{Gains, StoresEntries, StoresInScope, stored_header};
ghost use Rattle.krl_entries.specs.Canonical.{entries_in, section_entries};
ghost use Rattle.krl_entries.specs.Changes.{run_entries};
ghost use Rattle.krl_types.specs.Entry.{Entry};
ghost use Rattle.krl_types.specs.Item.{IsItem, item_entry};
ghost use Rattle.krl_entries.specs.Revocations.{nothing};
ghost use Rattle.krl_entries.specs.Scope.{all};

use crate::field_store::FieldStore;
use krl_entries::{Listed, Revocations, Store, Texts};
use krl_types::ItemKind;
use serial_set::Spans;
use std::alloc::{AllocError, Global};

impl<S: Spans> FieldStore<Revocations<S>> {
    /// Continues over another store, which takes the entries that are stored so far. The comment is
    /// dropped. Fails only if an allocation fails.
    pub fn continue_over<T: Store>(
        self,
        alloc: Global,
        store: T,
    ) -> Result<FieldStore<T>, AllocError>
        requires empty { T.contents store ≡ nothing }
        requires narrower { T.scope store ≢ all }
        ensures stores { IfOk result (λ rest. (entries : List Entry)
            → StoresEntries self entries → StoresEntries rest entries) }
        ensures same { IfOk result (λ rest. rest ≡ record self {
          header = stored_header (T.scope store) self.header;
          contents = rest.contents;
          scope = T.scope store;
        }) }
        ensures within { IfOk result StoresInScope }
        ensures some { OnErr result (self.contents ≢ nothing) }
        ensures all { self.scope ≡ all }
    {
        let mut rest = FieldStore::new(alloc, store);
        rest.add_all(&self.store)?;
        rest.store.leave();
        rest.version = self.version;
        rest.date = self.date;
        rest.authority = self.authority;
        rest.bitmap = self.bitmap;
        Ok(rest)
    }
}

impl<T: Store> FieldStore<T> {
    // Adds all that revocations hold.
    fn add_all<S: Spans>(&mut self, front: &Revocations<S>) -> Result<(), AllocError>
        requires { self.old.bitmap.pending ≡ None }
        ensures gains { OnOk result (Gains self.old (entries_in front.now) self.new) }
        ensures some { OnErr result (front.now ≢ nothing) }
    {
        let _front = front.in_order();
        for section in front.iter_authorities() {
            self.add_section(&section)?;
        }
        self.add_items(ItemKind::Key, front.iter_keys())?;
        self.add_items(ItemKind::Sha1, front.iter_sha1s())?;
        self.add_items(ItemKind::Sha256, front.iter_sha256s())
    }

    // Adds the serial numbers and the key IDs under an authority.
    fn add_section<S: Spans>(&mut self, section: &Listed<'_, S>) -> Result<(), AllocError>
        requires { self.old.bitmap.pending ≡ None }
        ensures { OnOk result (Gains self.old (section_entries section.now) self.new) }
    {
        self.set_authority(section.authority())?;
        self.add_set(section.spans())?;
        self.add_items(ItemKind::Id, section.iter_ids())
    }

    // Adds the serial numbers of a set under the authority in force, some at a time.
    fn add_set<S: Spans>(&mut self, spans: &S) -> Result<(), AllocError>
        ensures gains { OnOk result (Gains self.old
            (run_entries self.old.authority (S.spans spans.now)) self.new) }
        ensures authority { OnOk result (self.new.authority ≡ self.old.authority) }
    {
        let mut next = Some(0);
        while let Some(number) = next {
            let piece = spans.piece_from(number);
            self.add_spans(piece.as_slice())?;
            next = piece.next();
        }
        Ok(())
    }

    // Adds keys, hashes of one kind, or key IDs under the authority in force.
    fn add_items(&mut self, kind: ItemKind, items: Texts<'_>) -> Result<(), AllocError>
        requires { All (IsItem kind) items }
        ensures gains { OnOk result (Gains self.old
            (map (item_entry kind self.old.authority) items.entry) self.new) }
        ensures some { OnErr result (items.entry ≢ []) }
    {
        for item in items {
            self.add_item(kind, item)?;
        }
        Ok(())
    }
}

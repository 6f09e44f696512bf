//! A place in memory, which keeps every clause of a place.

ghost use Rattle.std.specs.Prelude.{◌≡◌, true};

use byte_streams::Lent;
use list_making::{Put, Target};
use run_faults::Cause;
use ssh_wire::Bytes;
use std::alloc::Global;

/// A name in memory, and what another program does to the list under it.
#[derive(Drop)]
pub struct Shelf<'a> {
    /// Where the lists are stored.
    pub alloc: Global,
    /// The list under the name.
    pub held: Option<Bytes>,
    /// The list that a new one follows.
    pub base: Option<&'a [u8]>,
    /// The list that another program writes while the one that a new one follows is read.
    pub torn: Option<&'a [u8]>,
    /// The list that another program writes right before the next one is put.
    pub late: Option<&'a [u8]>,
    /// Whether another program wrote a list.
    pub is_overtaken: bool,
}

impl<'a> Shelf<'a> {
    // Follows a list that another program wrote.
    fn overtake(&mut self, list: &'a [u8])
        ensures { self.new.is_overtaken ≡ true }
    {
        self.base = Some(list);
        self.is_overtaken = true;
    }
}

impl<'a> Target for Shelf<'a> {
    ghost use Rattle.std.specs.Prelude.{◌≡◌, option_map, true};
    ghost use Rattle.text_entries_tests.specs.Shelf.{known};

    type List = Lent<'a>;

    ghost holds = { λ shelf content. shelf.held ≡ content };

    ghost base = { λ shelf content. option_map known shelf.base ≡ content };

    ghost replaced = { λ shelf content. option_map known shelf.base ≡ content };

    ghost overtaken = { λ shelf. shelf.is_overtaken ≡ true };

    fn hold(&mut self, is_read: bool) -> Result<Option<Lent<'a>>, Cause> {
        if !is_read {
            return Ok(None);
        }
        match self.base {
            Some(bytes) => Ok(Some(Lent::new(bytes))),
            None => Ok(None),
        }
    }

    fn is_changed(&mut self) -> bool {
        match self.torn.take() {
            Some(list) => {
                self.overtake(list);
                true
            }
            None => false,
        }
    }

    fn put(&mut self, bytes: &[u8]) -> Result<Put, Cause> {
        let Ok(copy) = Vec::from_slice(self.alloc, bytes) else {
            return Err(Cause::NoMemory);
        };
        self.held = Some(Bytes::from_vec(copy));
        match self.late.take() {
            Some(list) => {
                self.overtake(list);
                Ok(Put::Again)
            }
            None => Ok(Put::Whole(bytes.len() as u64)),
        }
    }
}

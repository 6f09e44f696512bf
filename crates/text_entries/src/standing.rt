//! The state before a line.

ghost use Rattle.std.specs.Prelude.{◌≡◌};
ghost use Rattle.text_entries.specs.Says.{first_standing};

use crate::authority_names::AuthorityNames;
use ssh_wire::Bytes;
use std::alloc::Global;

/// The day and the lines before a line, which decide its meaning beside its own bytes.
#[derive(Drop)]
pub struct Standing {
    /// The day, by its number from 1970-01-01 on.
    pub(crate) today: u64,
    /// How many lines so far had a last day that is over.
    pub(crate) over: u64,
    /// The authority of entries of certificates that name none themselves.
    pub(crate) current: Option<Bytes>,
    /// The names of authorities.
    pub(crate) names: AuthorityNames,
}

impl Standing {
    /// No lines are before it. Allocates nothing.
    pub fn new(alloc: Global, today: u64) -> Standing
        ensures { result ≡ first_standing today }
    {
        Standing {
            today,
            over: 0,
            current: None,
            names: AuthorityNames::new(alloc),
        }
    }

    /// The names that lines so far gave to authorities.
    pub fn names(&self) -> &AuthorityNames
        ensures { result.now ≡ self.now.names }
    {
        &self.names
    }

    /// How many lines so far had a last day that is over, of up to 64 bits.
    pub fn over(&self) -> u64
        ensures { result ≡ self.now.over }
    {
        self.over
    }
}

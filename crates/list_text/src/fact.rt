//! The facts about a list.

use krl_entries::Fact as HeldFact;
use krl_format::Header;

/// A fact about a list.
#[derive(Clone, Copy)]
pub enum Fact<'a> {
    /// The name of the list's file, and its header. A plain list has none.
    List(&'a str, Option<&'a Header>),
    /// A fact about its entries.
    Held(HeldFact<'a>),
}

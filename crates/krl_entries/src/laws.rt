//! Laws of the definitions. Each function does nothing: its contract is the law.

mod asked;
mod naming;

pub use asked::{
    more_names_revoke_more, reasons_are_ways, revoked_for_a_reason, revokes_what_is_meant,
    revokes_what_is_named,
};
pub use naming::{entries_decide_what_is_held, meaning_decides_naming, naming_decides_meaning};

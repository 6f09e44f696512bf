//! The text of a revocation list: the entries that its lines name.
#![tactic(auto)]

mod authority;
mod authority_names;
mod day;
mod hint;
mod key_id;
mod line;
mod mark;
mod misspelt;
mod named;
mod names_by_key;
mod one_off;
mod reading;
mod standing;
mod text_cause;
mod text_fault;
mod values;
mod word;

pub use authority_names::AuthorityNames;
pub use day::day_in;
pub use hint::{Hint, LineName, has_word_at, hint_at};
pub use key_id::no_id;
pub use line::take_line;
pub use mark::name_given;
pub use misspelt::{Misspelt, is_close};
pub use named::{Named, named_in};
pub use names_by_key::NamesByKey;
pub use one_off::one_off_where_spelled;
pub use reading::read_text;
pub use standing::Standing;
pub use text_cause::TextCause;
pub use text_fault::TextFault;

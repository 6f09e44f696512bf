//! Laws of the definitions. Each function does nothing: its contract is the law.

mod layout;
mod lists;

pub use layout::{
    authority_is_these_bytes, extension_is_these_bytes, header_is_these_bytes,
    magic_is_these_bytes, signature_is_these_bytes, types_are_these_bytes,
};
pub use lists::{
    a_cut_ends_early, each_text_is_judged, first_fields_have_forty_bytes, no_fault_where_spelled,
    one_first_fault, one_front_begins_the_other, one_number_of_a_bitmap, one_spelling,
};

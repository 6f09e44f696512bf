//! Parts of the tests of several crates: strings and points as the formats spell them, keys as
//! files contain them, lists and runs of serials, printed texts, and readers and writers that give
//! and take few bytes at a call, are interrupted, and fail.
#![tactic(auto)]

mod calls;
mod giver;
mod keys;
mod lists;
mod printing;
mod serials;
mod spelled;
mod taker;

pub use giver::{Giver, Then};
pub use keys::{
    CERT_LINE, CONTAINER, GITHUB, GITHUB_LINE, GITHUB_PRINT, OTHER, OTHER_LINE, PUBLISHED,
};
pub use lists::{BITMAP, FIVE, HEADER, ID_A, KEY_SECTION, SHA256_SECTION, list_of};
pub use printing::misprinted;
pub use serials::EIGHT_AND_ONE;
pub use spelled::{joined, point, repeated, strings};
pub use taker::Taker;

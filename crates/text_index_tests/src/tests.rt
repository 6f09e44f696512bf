//! Lines of texts that are found, lists of fingerprints, and the callers of the pages.

mod fingerprints;
mod found;
mod many;
mod page;

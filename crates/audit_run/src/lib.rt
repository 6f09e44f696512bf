//! An audit of files and directories by a list, as one run, how far it is, and its last line.
#![tactic(auto)]

mod entries;
mod file_kind;
mod files;
pub mod laws;
mod named;
mod names;
mod options;
mod order;
mod paths;
mod progress;
mod reading;
mod round;
mod run;
mod search;
mod selection;
mod sending;
mod sorting;
mod sought;
mod stop;
mod summary;
mod tree;
mod walk;
mod zero_ended;

pub use file_kind::{FileKind, Found, Identity, Opened};
pub use options::{Options, Terminal};
pub use order::{Loaded, Order};
pub use paths::{path_in, shown_path};
pub use progress::{push_progress, push_wipe};
pub use round::Screen;
pub use run::{Audited, Sources, audit_run, sha256_if, why_incomparable};
pub use search::Search;
pub use selection::{Selection, is_audited, is_sought, selection_of};
pub use sorting::sort_names;
pub use summary::{Summary, push_list, push_summary};
pub use tree::Tree;

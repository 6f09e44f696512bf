//! The files that sshd(8) reads for keys, from what `sshd -T` prints and from a list of users.
#![tactic(auto)]

mod files;
pub mod laws;
mod pattern;
mod settings;
mod users;
mod words;

pub use files::{SshdFile, SshdFileKind, files_of};
pub use pattern::PatternFault;
pub use settings::{Setting, Settings, SettingsFault, settings_of};
pub use users::{User, UserFault, users_of};

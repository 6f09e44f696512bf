//! What no contract says: audits of trees in memory, searches of logs in memory, and names and texts
//! as people read them.

mod audits;
mod deep;
mod entries;
mod lists;
mod log_files;
mod login_lists;
mod login_objects;
mod login_words;
mod logins;
mod names;
mod page;
mod shelf;
mod sought;
mod texts;

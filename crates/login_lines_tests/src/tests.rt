//! Lines of logs, texts of key IDs, what is printed about logins, and the callers of the pages.

mod escapes;
mod explained;
mod lines;
mod objects;
mod outcomes;
mod page;
mod sizes;
mod texts;
mod unread;

//! What `sshd -T` prints, lists of users, and the files that they name.

mod files;
mod page;
mod printed;
mod settings;
mod users;

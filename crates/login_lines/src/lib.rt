//! The lines in which sshd(8) reports a login by a key or a certificate.
#![tactic(auto)]

mod escapes;
mod fault;
mod key_name;
pub mod laws;
mod login;
mod message;
mod number;
mod opening;
mod words;

pub use escapes::unescape;
pub use fault::LoginFault;
pub use key_name::KeyName;
pub use login::{Certificate, Login, login_of};
pub use opening::Step;

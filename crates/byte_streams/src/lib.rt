//! Where bytes come from and where they go: readers and writers that stay failed once they have
//! failed, and fields that are taken from a reader up to a limit.
#![tactic(auto)]

mod device;
mod filling;
mod from_buffer;
mod from_read;
mod interruptions;
mod lent;
mod pull;
mod rest;
mod sending;
mod to_write;

pub use device::{Failed, Sink, Source};
pub use from_buffer::FromBuffer;
pub use from_read::FromRead;
pub use lent::Lent;
pub use pull::Pull;
pub use sending::{Sent, send};
pub use to_write::ToWrite;

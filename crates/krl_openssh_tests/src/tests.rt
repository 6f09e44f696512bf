//! What no contract says: what OpenSSH's ssh-keygen answered about lists and about keys, and points
//! from outside.

mod differences;
mod judgements;
mod made;
mod page;
mod points;

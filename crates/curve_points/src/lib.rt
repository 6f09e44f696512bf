//! Whether a point is on one of the curves P-256, P-384 and P-521 (SP 800-186 section 3.2.1).
#![tactic(auto)]

mod coordinate;
mod curve;
pub mod laws;
mod number;
mod point;
mod remainder;

pub use coordinate::is_usual;
pub use curve::Curve;
pub use point::is_on_curve;

//! Why a list gives no answer.

use krl_core::KrlFault;
use krl_openssh::Incomparable;

/// The list is not read, or names of it cannot be compared with those of a certificate.
#[derive(Clone, Copy)]
pub enum Refusal {
    /// The list's first fault, or `NoMemory`.
    Fault(KrlFault),
    /// The list is read, and names of it cannot be compared.
    Incomparable(Incomparable),
}

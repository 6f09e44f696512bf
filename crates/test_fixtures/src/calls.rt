//! The beginning of a call of a device.

use std::io::{self, ErrorKind};

/// Begins a call. It is interrupted if interruptions are left, and fails if no call is left before
/// the failure.
pub fn begin(interruptions: &mut usize, calls_before_failure: &mut usize) -> io::Result<()> {
    if *interruptions > 0 {
        *interruptions -= 1;
        return Err(ErrorKind::Interrupted.into());
    }
    if *calls_before_failure == 0 {
        return Err(ErrorKind::Other.into());
    }
    *calls_before_failure -= 1;
    Ok(())
}

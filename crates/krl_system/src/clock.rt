//! The present moment, and the date of a list.

use krl_job::number_of;
use run_faults::Cause;
use std::env::{self, VarError};
use std::time::{SystemTime, UNIX_EPOCH};

// The variable with the date of the output, so that it can be made again with the same bytes.
const DATE: &str = "SOURCE_DATE_EPOCH";

/// The date of a list that is made now: that of the environment if it is a number, otherwise the
/// present moment.
pub fn date(rt: &HostRuntime) -> Result<u64, Cause> {
    match env::var(rt, DATE) {
        Ok(text) => match number_of(text.as_str()) {
            Some(date) => Ok(date),
            None => Ok(moment(rt)),
        },
        Err(VarError::NotPresent | VarError::NotUnicode) => Ok(moment(rt)),
        Err(VarError::OutOfMemory) => Err(Cause::NoMemory),
    }
}

/// The seconds since 1970. A clock that cannot be read, or shows an earlier time, counts as 0.
pub fn moment(rt: &HostRuntime) -> u64 {
    match present(rt) {
        Some(now) => now,
        None => 0,
    }
}

/// The seconds since 1970, if the clock can be read and does not show an earlier time.
pub fn present(rt: &HostRuntime) -> Option<u64> {
    let now = SystemTime::now(rt).ok()?;
    let passed = now.duration_since(UNIX_EPOCH).ok()?;
    Some(passed.as_secs())
}

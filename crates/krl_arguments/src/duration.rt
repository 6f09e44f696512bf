//! Durations, as the values of options.

ghost use Rattle.std.specs.Prelude.{◌≡◌};
ghost use Rattle.krl_job.specs.Job.{number_of};
ghost use Rattle.krl_arguments.specs.Duration.{duration_of, seconds_of, whole_seconds};

use crate::number::MOST;
use krl_job::number_of;
use std::str;

/// The seconds of a duration: a number from 1 on and its unit, one of s, m, h and d, as in 24h.
pub fn duration_of(text: &str) -> Option<u64>
    ensures { result ≡ duration_of text.now }
{
    match text.as_bytes().split_last() {
        Some((unit, digits)) => whole_seconds(number_in(digits), seconds_of(*unit)),
        None => None,
    }
}

// The seconds of a unit, by its letter.
fn seconds_of(unit: u8) -> Option<u64>
    ensures { result ≡ seconds_of unit }
{
    match unit {
        b's' => Some(1),
        b'm' => Some(60),
        b'h' => Some(3_600),
        b'd' => Some(86_400),
        _ => None,
    }
}

// The number of decimal digits.
fn number_in(digits: &[u8]) -> Option<u64>
    ensures { result ≡ number_of digits.now }
{
    match str::from_utf8(digits) {
        Ok(text) => number_of(text),
        Err(_) => None,
    }
}

// The seconds of this number of units, if there is one and the seconds are below 2^53.
fn whole_seconds(count: Option<u64>, unit: Option<u64>) -> Option<u64>
    ensures { result ≡ whole_seconds count unit }
{
    match (count, unit) {
        (Some(count), Some(unit)) if count > 0 => match count.checked_mul(unit) {
            Some(seconds) if seconds < MOST => Some(seconds),
            _ => None,
        },
        _ => None,
    }
}

//! The text of an instant.

ghost use Rattle.std.specs.Prelude.{◌≡◌, IfOk};
ghost use Rattle.cert_listing.specs.Time.{instant_text};

use jiff::Timestamp;
use jiff::tz::Offset;
use std::alloc::{AllocError, Global};

// The first second of the year 9999, counted from 1970.
const YEAR_9999: u64 = 253_370_764_800;

/// An instant in UTC, as `YYYY-MM-DDTHH:MM:SSZ`, given in seconds since 1970. From the year 9999 on
/// it is `@` and the number. Fails only if an allocation fails.
pub fn time_text(alloc: Global, seconds: u64) -> Result<Vec<u8>, AllocError>
    ensures { IfOk result (λ text. text.items ≡ instant_text seconds) }
{
    if seconds >= YEAR_9999 {
        return Ok(format!(in alloc; "@{seconds}")?.into_bytes());
    }
    let Ok(instant) = Timestamp::from_second(seconds as i64) else {
        unreachable!();
    };
    let datetime = Offset::UTC.to_datetime(instant);
    Ok(format!(in alloc; "{datetime}Z")?.into_bytes())
}

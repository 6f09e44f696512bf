//! Decimal numbers.

ghost use Rattle.std.specs.Prelude.{◌≡◌};
ghost use Rattle.login_lines.specs.declared.words.Class.TheVariants.{Digit};
ghost use Rattle.login_lines.specs.Numbers.{number_of};
ghost use Rattle.login_lines.specs.Words.{IsWordOf};

use std::str;

/// The number that decimal digits spell, if it is below 2^64.
pub fn number_of(digits: &[u8]) -> Option<u64>
    requires { IsWordOf Digit digits.now }
    ensures { result ≡ number_of digits.now }
{
    let Ok(text) = str::from_utf8(digits) else {
        return None;
    };
    u64::from_str_radix(text, 10).ok()
}

//! Numbers in specification files (ssh-keygen(1), KEY REVOCATION LISTS).

ghost use Rattle.std.specs.Prelude.{◌≡◌, ◌<◌, ◌≤◌, ◌^◌, IfOk, None, Some, SomeIff};
ghost use Rattle.std.specs.Str.Parse.{IsNumeral, digits_value};
ghost use Rattle.krl_spec.specs.Number.{bounds_of_text, number_in, number_of_text, serials_of_text};

use crate::blanks::{before_blanks, position_of};
use key_text::after_blanks;
use run_faults::SpecCause;
use std::str;

/// The first and the last number of a range.
#[derive(Clone, Copy)]
pub struct Bounds {
    /// The first number.
    pub lo: u64,
    /// The last number.
    pub hi: u64,
}

/// The serials that a text names: none of them is 0.
#[tactic(auto, unfolding(crate::specs::Number::serials_of_text))]
pub fn read_serials(text: &[u8]) -> Result<Bounds, SpecCause>
    ensures exact { result ≡ serials_of_text text.now }
    ensures ordered { IfOk result (λ bounds. (0 < bounds.lo) × (bounds.lo ≤ bounds.hi)) }
{
    let Some(bounds) = read_bounds(text) else {
        return Err(SpecCause::Number);
    };
    if bounds.lo == 0 || bounds.hi == 0 {
        return Err(SpecCause::Zero);
    }
    if bounds.hi < bounds.lo {
        return Err(SpecCause::Reversed);
    }
    Ok(bounds)
}

/// One number, or two around a hyphen and blanks.
#[tactic(auto, unfolding(crate::specs::Number::bounds_of_text))]
pub fn read_bounds(text: &[u8]) -> Option<Bounds>
    ensures { result ≡ bounds_of_text text.now }
{
    let hyphen = position_of(text, b'-');
    if hyphen == text.len() {
        let number = read_number(text)?;
        return Some(Bounds {
            lo: number,
            hi: number,
        });
    }
    let lo = read_number(before_blanks(&text[..hyphen]))?;
    let hi = read_number(after_blanks(&text[hyphen + 1..]))?;
    Some(Bounds { lo, hi })
}

/// A number below 2^64: hexadecimal digits after `0x` or `0X`, octal digits after another `0`,
/// otherwise decimal digits. `0` alone is zero. None if the text is not such a number.
#[tactic(auto, unfolding(crate::specs::Number::number_of_text))]
pub fn read_number(text: &[u8]) -> Option<u64>
    ensures { result ≡ number_of_text text.now }
{
    match text {
        [b'0', b'x' | b'X', digits @ ..] => number_in(16, digits),
        [b'0', ..] => number_in(8, text),
        _ => number_in(10, text),
    }
}

// A number below 2^64, given by its digits in a base.
#[tactic(auto, using(crate::proofs::Digits::number_is_read))]
fn number_in(base: u32, digits: &[u8]) -> Option<u64>
    requires low { 2 ≤ base }
    requires high { base ≤ 36 }
    ensures { result ≡ number_in base digits.now }
{
    parsed(base, digits)
}

// The number that the standard library reads from digits in a base.
#[tactic(auto, using(crate::proofs::Digits::digits_are_text))]
fn parsed(base: u32, digits: &[u8]) -> Option<u64>
    requires low { 2 ≤ base }
    requires high { base ≤ 36 }
    ensures { SomeIff result (IsNumeral base digits.now × (digits_value base digits.now < 2 ^ 64))
        (digits_value base digits.now) }
{
    // The standard library accepts a plus before the digits.
    if digits.first() == Some(&b'+') {
        return None;
    }
    let Ok(text) = str::from_utf8(digits) else {
        return None;
    };
    u64::from_str_radix(text, base).ok()
}

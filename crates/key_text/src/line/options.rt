//! The options field of an authorized keys line.

ghost use Rattle.std.specs.Prelude.{◌≡◌, false, option_map};
ghost use Rattle.key_text.specs.LineReading.{after_options, quoted_after};

use crate::line::words::is_blank;

/// The text after the options field, which ends at the first blank outside double quotes. A
/// quote after a backslash is a byte like any other. Returns none if the text ends inside quotes.
pub fn after_options(text: &[u8]) -> Option<&[u8]>
    ensures { option_map (λ rest. rest.now) result ≡ after_options false false text.now }
{
    let mut quoted = false;
    let mut escaped = false;
    for (i, byte) in text.iter().enumerate() {
        if is_blank(*byte) && !quoted {
            return Some(&text[i..]);
        }
        quoted = quoted_after(quoted, escaped, *byte);
        escaped = *byte == b'\\';
    }
    if quoted { None } else { Some(&[]) }
}

// Returns true if the position after a byte is between quotes, given the position before it.
fn quoted_after(quoted: bool, escaped: bool, byte: u8) -> bool
    ensures { result ≡ quoted_after quoted escaped byte }
{
    if byte == b'"' && !escaped {
        !quoted
    } else {
        quoted
    }
}

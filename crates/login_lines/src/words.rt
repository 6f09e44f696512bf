//! The parts of a message, from left to right.

ghost use Rattle.std.specs.Prelude.{◌≡◌, ◌≤◌, IfSome, length, option_map};
ghost use Rattle.login_lines.specs.Words.{after, group_at, group_start, parts, passes};
ghost use Rattle.login_lines.specs.Words.{span_at, span_len, split_at};

/// The bytes of one kind of word.
#[derive(Clone, Copy)]
pub enum Class {
    /// All bytes but a space.
    Word,
    /// The decimal digits.
    Digit,
    /// Upper case letters, digits and the hyphen.
    Kind,
}

// Returns true if a byte is of the class.
fn passes(class: Class, byte: u8) -> bool
    ensures { result ≡ passes class byte }
{
    match class {
        Class::Word => byte != b' ',
        Class::Digit => byte.is_ascii_digit(),
        Class::Kind => byte.is_ascii_uppercase() || byte.is_ascii_digit() || byte == b'-',
    }
}

// The number of bytes of the class at the start.
fn span_len(class: Class, text: &[u8]) -> usize
    ensures span { result ≡ span_len class text.now }
    ensures within { result ≤ length text.now }
{
    let mut rest = text;
    'bytes: while let [byte, after @ ..] = rest {
        if !passes(class, *byte) {
            return text.len() - rest.len();
        }
        rest = after;
    }
    text.len()
}

/// The text after its front, if it begins so.
#[tactic(auto, unfolding(crate::specs::Words::after))]
pub fn after<'a>(front: &[u8], text: &'a [u8]) -> Option<&'a [u8]>
    ensures after { option_map (λ rest. rest.now) result ≡ after front.now text.now }
    ensures within { IfSome result (λ rest. length rest.now ≤ length text.now) }
{
    // Most texts differ in their first byte, which a comparison of all bytes does not end at.
    if let ([first, ..], [byte, ..]) = (front, text) {
        if first != byte {
            return None;
        }
    }
    if text.starts_with(front) {
        Some(&text[front.len()..])
    } else {
        None
    }
}

// The first bytes, and the text after the separator that follows them.
#[tactic(auto, unfolding(crate::specs::Words::split_at))]
fn split_at<'a>(size: usize, separator: &[u8], text: &'a [u8]) -> Option<(&'a [u8], &'a [u8])>
    requires { size ≤ length text.now }
    ensures parts { option_map parts result ≡ split_at size separator.now text.now }
    ensures within { IfSome result (λ p. length p.1.now ≤ length text.now) }
{
    let (front, rest) = text.split_at(size);
    let rest = after(separator, rest)?;
    Some((front, rest))
}

/// The first bytes of the class, at least one, and the text after the separator that follows them.
#[tactic(auto, unfolding(crate::specs::Words::span_at))]
pub fn split_span<'a>(
    class: Class,
    separator: &[u8],
    text: &'a [u8],
) -> Option<(&'a [u8], &'a [u8])>
    ensures span { option_map parts result ≡ span_at class separator.now text.now }
    ensures within { IfSome result (λ p. length p.1.now ≤ length text.now) }
{
    let size = span_len(class, text);
    if size == 0 {
        return None;
    }
    split_at(size, separator, text)
}

/// The text before the last ` (serial `, and the text after it. No parenthesis opens after it.
#[tactic(auto, unfolding(crate::specs::Words::group_at))]
pub fn split_group(text: &[u8]) -> Option<(&[u8], &[u8])>
    ensures { option_map parts result ≡ group_at text.now }
{
    split_at(group_start(text), b" (serial ", text)
}

// The position of the byte before the last parenthesis that opens.
fn group_start(text: &[u8]) -> usize
    ensures at { result ≡ group_start text.now }
    ensures within { result ≤ length text.now }
{
    let mut end = text.len();
    while end > 0 && text[end - 1] != b'(' {
        end -= 1;
    }
    end.saturating_sub(2)
}

//! The words for an answer: those that the program prints for the fault with its number.

ghost use Rattle.std.specs.Prelude.{◌≡◌, ◌++◌, MatchOption, Some, None};
ghost use Rattle.krl_c.specs.Words.{cert_words, key_words, line_words, list_words, plain_words};
ghost use Rattle.krl_c.specs.Words.{refusal, words};

/// The words for a number that no call returns.
const UNKNOWN: &str = "unknown answer";

// The words in two pieces.
#[derive(Clone, Copy)]
pub(crate) struct Words {
    pub(crate) head: &'static str,
    pub(crate) tail: &'static str,
}

// The words for an answer.
pub(crate) fn words_for(answer: i32) -> Words
    ensures { result.head.now ++ result.tail.now ≡ words answer }
{
    let head = "";
    if answer < 0 {
        return match refused(answer.unsigned_abs()) {
            Some(words) => words,
            None => Words {
                head,
                tail: UNKNOWN,
            },
        };
    }
    match answer {
        0 => Words { head, tail: "ok" },
        1 => Words {
            head,
            tail: "revoked",
        },
        _ => Words {
            head,
            tail: UNKNOWN,
        },
    }
}

// The words for an answer below zero, by its number without the sign: the hundreds say what was
// refused, and the last two digits why.
fn refused(number: u32) -> Option<Words>
    ensures { MatchOption result (refusal number ≡ None)
        (λ words. refusal number ≡ Some (words.head.now ++ words.tail.now)) }
{
    let (what, why) = (number / 100, number % 100);
    let (head, tail) = match what {
        0 => ("", plain_words(why)?),
        1 => ("", list_words(why)?),
        2 => ("", line_words(why)?),
        3 => ("subject 1 Key, ", key_words(why)?),
        4 => ("subject 2 Cert, ", cert_words(why)?),
        5 => ("subject 2 Cert, cert 3 Key, ", key_words(why)?),
        6 => ("subject 2 Cert, cert 7 Authority, ", key_words(why)?),
        _ => return None,
    };
    Some(Words { head, tail })
}

// The words for an answer that is not a fault.
fn plain_words(number: u32) -> Option<&'static str>
    ensures { MatchOption result (plain_words number ≡ None)
        (λ words. plain_words number ≡ Some words.now) }
{
    match number {
        1 => Some("no memory"),
        2 => Some("no list is loaded"),
        _ => None,
    }
}

// The words for a list, by the last two digits.
fn list_words(number: u32) -> Option<&'static str>
    ensures { MatchOption result (list_words number ≡ None)
        (λ words. list_words number ≡ Some words.now) }
{
    match number {
        1 => Some("krl 1 Magic"),
        2 => Some("krl 2 FormatVersion"),
        3 => Some("krl 3 EndsEarly"),
        4 => Some("krl 4 UnknownSection"),
        5 => Some("krl 5 UnknownCertSection"),
        6 => Some("krl 6 Length"),
        7 => Some("krl 7 RangeReversed"),
        8 => Some("krl 8 BitmapNegative"),
        9 => Some("krl 9 BitmapWraps"),
        10 => Some("krl 10 HashLength"),
        11 => Some("krl 11 AfterSignature"),
        12 => Some("krl 12 TooLong"),
        13 => Some("krl 13 Read"),
        15 => Some("krl 15 CriticalExtension"),
        16 => Some("an authority of the list is no key in its one spelling"),
        17 => Some("a line of the plain list is no key"),
        18 => Some("a key ID of the list has a zero byte"),
        _ => None,
    }
}

// The words for a line, by the number of its fault.
fn line_words(number: u32) -> Option<&'static str>
    ensures { MatchOption result (line_words number ≡ None)
        (λ words. line_words number ≡ Some words.now) }
{
    match number {
        1 => Some("line 1 NoKey"),
        2 => Some("line 2 Base64"),
        3 => Some("line 3 WordDiffers"),
        _ => None,
    }
}

// The words for a key, by the last two digits.
fn key_words(number: u32) -> Option<&'static str>
    ensures { MatchOption result (key_words number ≡ None)
        (λ words. key_words number ≡ Some words.now) }
{
    match number {
        2 => Some("key 2 UnknownType"),
        3 => Some("key 3 Curve"),
        4 => Some("key 4 Point"),
        5 => Some("key 5 Length"),
        6 => Some("key 6 Number"),
        7 => Some("key 7 Trailing"),
        8 => Some("key 8 TooLong"),
        11 => Some("key 1 Wire, wire 1 Short"),
        12 => Some("key 1 Wire, wire 2 Negative"),
        13 => Some("key 1 Wire, wire 3 NotShortest"),
        _ => None,
    }
}

// The words for a certificate, by the number of its fault: its keys' faults have other hundreds.
fn cert_words(number: u32) -> Option<&'static str>
    ensures { MatchOption result (cert_words number ≡ None)
        (λ words. cert_words number ≡ Some words.now) }
{
    match number {
        1 => Some("cert 1 Wire"),
        2 => Some("cert 2 UnknownType"),
        4 => Some("cert 4 CertType"),
        5 => Some("cert 5 Options"),
        6 => Some("cert 6 Principals"),
        8 => Some("cert 8 Signature"),
        9 => Some("cert 9 Trailing"),
        10 => Some("its key ID has a zero byte"),
        _ => None,
    }
}

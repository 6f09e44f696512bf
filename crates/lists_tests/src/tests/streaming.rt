//! Lists that are stored up to some byte, and streamed past the subjects from there on.

ghost use Rattle.std.specs.Prelude.{◌≡◌, false};

use crate::tests::lists::{list_of, text_of};
use crate::tests::reasons::says_only;
use crate::tests::rows::ROWS;
use crate::tests::said::{A, ALL, About, B, Said, held_of, subject_of};
use byte_streams::{FromBuffer, Source};
use key_text::{sha1_of, sha256_of};
use krl_core::{KrlFault, Reading, Store, Walk};
use krl_entries::{Reason, Reasons};
use krl_queries::Questions;
use span_sets::Held;
use std::alloc::Global;
use std::io::BufReader;
use std::process::Abort;
use test_fixtures::{Giver, Then};

// Authorities whose keys are revoked, by the blob and by each hash.
const C: &[u8] = b"C, by its blob";

const D: &[u8] = b"D, by a SHA-1";

const E: &[u8] = b"E, by a SHA-256";

// Subjects, and the only reason why the list revokes each.
const ASKED: [(About<'static>, Option<Reason>); 15] = [
    (None, None),
    (Some((A, 70, b"x")), Some(Reason::Serial)),
    (Some((A, 71, b"x")), None),
    (Some((B, 70, b"x")), None),
    (Some((B, 3, b"x")), Some(Reason::SerialOfAll)),
    (Some((A, 9, b"x")), Some(Reason::SerialOfAll)),
    (Some((B, 10, b"x")), None),
    (Some((B, 103, b"x")), Some(Reason::SerialOfAll)),
    (Some((B, 104, b"x")), None),
    (Some((B, 0, b"b")), Some(Reason::KeyId)),
    (Some((A, 0, b"b")), None),
    (Some((A, 0, b"all")), Some(Reason::KeyIdOfAll)),
    (Some((C, 0, b"x")), Some(Reason::Authority)),
    (Some((D, 0, b"x")), Some(Reason::AuthoritySha1)),
    (Some((E, 0, b"x")), Some(Reason::AuthoritySha256)),
];

// A list with entries of each kind.
fn text(rt: &impl Abort, alloc: Global) -> Vec<u8> {
    let all = [
        Said::Serials(ALL, 3, 9),
        Said::Serials(ALL, 101, 101),
        Said::Serials(ALL, 103, 103),
        Said::Serials(ALL, 105, 106),
        Said::Id(ALL, b"all"),
        Said::Serials(A, 70, 70),
        Said::Serials(A, 1_000_000, 1_000_000),
        Said::Id(B, b"b"),
        Said::Key(C),
        Said::Sha1(&sha1_of(D)),
        Said::Sha256(&sha256_of(E)),
    ];
    text_of(rt, alloc, &held_of::<Held>(rt, alloc, &all))
}

// A buffer of this size in front of a `Giver`.
type Buffered<'a> = FromBuffer<Giver<'a>>;

fn buffered<'a>(rt: &impl Abort, alloc: Global, size: usize, giver: Giver<'a>) -> Buffered<'a>
    ensures { ⟦<FromBuffer<Giver<'a>> as Source>⟧.has_failed result ≡ false }
{
    FromBuffer::new(BufReader::with_capacity(alloc, size, giver).expect(rt, "there is memory"))
}

// Whether a list revokes the subject, and why, if at most `most` bytes of it are stored.
fn passes<R: Source + Drop>(
    rt: &impl Abort,
    alloc: Global,
    reader: R,
    most: u64,
    about: About<'_>,
) -> Result<(bool, Reasons), KrlFault>
    requires { R.has_failed reader ≡ false }
{
    let subject = subject_of(rt, alloc, about);
    let mut front: Reading<Held, R> = Reading::new(alloc, reader);
    if !front.read_to(most)? {
        let (_, list, _) = front.done();
        return Ok((list.query(&subject), list.reasons(&subject)));
    }
    let mut questions: Questions<Held> = Questions::new(alloc);
    questions.ask(&subject).expect(rt, "there is memory");
    let Ok(walk) = front.continue_over(alloc, questions) else {
        return Err(KrlFault::NoMemory);
    };
    let (read, _) = walk.read_on();
    let (_, questions) = read?;
    Ok((questions.answer(&subject), questions.reasons(&subject)))
}

#[test]
fn from_each_byte_on(rt: HostRuntime) {
    let text = text(&rt, rt.alloc());
    for most in 0..=text.len() {
        for (i, (about, reason)) in ASKED.iter().enumerate() {
            let giver = Giver::new(&text, 1 + most % 7);
            let reader = buffered(&rt, rt.alloc(), 1 + i * 9, giver);
            let (revoked, found) = passes(&rt, rt.alloc(), reader, most as u64, *about).expect(
                &rt,
                "the list is read",
            );
            let place = (i, most);
            assert_eq!(rt; revoked, reason.is_some(), "case and bytes held: {place:?}");
            says_only(&rt, found, *reason, place);
        }
    }
}

// How a walk ended, and how many bytes it took.
type End = (Result<(), KrlFault>, u64);

// Reads to the end, a field at a time.
fn step_on<T: Store, R: Source + Drop>(mut walk: Walk<T, R>) -> End {
    for _ in 0..100_000 {
        match walk.step() {
            Ok(true) => {}
            Ok(false) => return (Ok(()), walk.taken()),
            Err(fault) => return (Err(fault), walk.taken()),
        }
    }
    (Ok(()), 0)
}

// Reads to the end, many fields at a time.
fn stride_on<T: Store, R: Source + Drop>(mut walk: Walk<T, R>) -> End {
    for _ in 0..100_000 {
        match walk.read_fields() {
            Ok(true) => {}
            Ok(false) => return (Ok(()), walk.taken()),
            Err(fault) => return (Err(fault), walk.taken()),
        }
    }
    (Ok(()), 0)
}

// Continues after the byte with which the front ends, with the subject alone.
fn pass_on<R: Source + Drop>(rt: &impl Abort, alloc: Global, reader: R, most: u64) -> End
    requires { R.has_failed reader ≡ false }
{
    let mut front: Reading<Held, R> = Reading::new(alloc, reader);
    match front.read_to(most) {
        Ok(true) => {}
        Ok(false) => return (Ok(()), front.taken()),
        Err(fault) => return (Err(fault), front.taken()),
    }
    let mut questions: Questions<Held> = Questions::new(alloc);
    let subject = subject_of(rt, alloc, Some((A, 70, b"x")));
    questions.ask(&subject).expect(rt, "there is memory");
    match front.continue_over(alloc, questions) {
        Ok(walk) => stride_on(walk),
        Err(_) => (Err(KrlFault::NoMemory), 0),
    }
}

// A giver of a text's first bytes, a number of them at a call, which fails from a call on or where
// they end.
type Given = (usize, usize, usize, Then);

fn giver<'a>(text: &'a [u8], given: Given) -> Giver<'a> {
    let (count, per_call, calls, then) = given;
    let mut giver = Giver::new(&text[..count.min(text.len())], per_call);
    giver.calls_before_failure = calls;
    giver.then = then;
    giver
}

// A list that is streamed from any byte on ends like one that is stored a field at a time.
fn ends_alike(rt: &impl Abort, alloc: Global, text: &[u8], given: Given) {
    let (count, per_call, calls, _) = given;
    let reader = buffered(rt, alloc, 32, giver(text, given));
    let held = step_on::<_, Buffered<'_>>(Reading::<Held, Buffered<'_>>::new(alloc, reader));
    for most in [0, 60, 130, count as u64, u64::MAX] {
        let reader = buffered(rt, alloc, 32, giver(text, given));
        let passed = pass_on(rt, alloc, reader, most);
        assert!(rt;
            passed == held,
            "{count} bytes, {per_call} a call, {calls} calls, {most} held"
        );
    }
}

#[test]
fn cut_at_each_byte(rt: HostRuntime) {
    let text = text(&rt, rt.alloc());
    for count in 0..=text.len() {
        for then in [Then::Ends, Then::Fails] {
            ends_alike(&rt, rt.alloc(), &text, (count, 1000, usize::MAX, then));
        }
    }
}

#[test]
fn failing_at_each_call(rt: HostRuntime) {
    let text = text(&rt, rt.alloc());
    for per_call in [1, 3, 7] {
        for calls in 0..=text.len() / per_call + 2 {
            ends_alike(
                &rt,
                rt.alloc(),
                &text,
                (text.len(), per_call, calls, Then::Ends),
            );
        }
    }
}

#[test]
fn worked_lists(rt: HostRuntime) {
    for row in &ROWS {
        let text = list_of(&rt, rt.alloc(), row.0);
        ends_alike(
            &rt,
            rt.alloc(),
            &text,
            (text.len(), 7, usize::MAX, Then::Ends),
        );
    }
}

//! Doing what a line of the text of a list says.

ghost use Rattle.std.specs.Prelude.{◌≡◌, List, Result, true, ℕ};
ghost use Rattle.key_text.specs.Blanks.{after_blanks};
ghost use Rattle.krl_entries.specs.Revocations.{Revocations as RevocationsOf};
ghost use Rattle.krl_spec.specs.Entries.{names_entry, order_entry};
ghost use Rattle.krl_spec.specs.Under.{authority_under};
ghost use Rattle.krl_types.specs.Entry.{Entry as EntryOf};
ghost use Rattle.text_entries.specs.Reading.{DeclaresName, TakesEntry, TakesLine};
ghost use Rattle.text_entries.specs.Says.{bare_key_entry, content_says, declares, ending_says};
ghost use Rattle.text_entries.specs.Says.{has_zero_id, hash_entry, is_misplaced};
ghost use Rattle.text_entries.specs.Says.{id_entry, id_hex_entry, key_blob_entry, keyed_entry};
ghost use Rattle.text_entries.specs.Says.{line_says, mark_says, marked_entry, names_says};
ghost use Rattle.text_entries.specs.Says.{serial_entry, sha1_entry, spec_entry, whole_entry};
ghost use Rattle.text_entries.specs.Says.{word_says};
ghost use Rattle.text_entries.specs.Values.{is_sha1};
ghost use Rattle.text_entries.specs.Word.{order_in};
ghost use Rattle.text_entries.specs.declared.text_cause.TextCause.{TextCause as TextCauseOf};

use crate::authority::{bytes_of, read_authority, read_authority_blob, read_key, under};
use crate::authority_names::{AuthorityNames, is_name};
use crate::day::{dated_content, has_day_in_comment, is_over, last_day, until_in};
use crate::key_id::{has_control, is_cut, no_id};
use crate::mark::{Mark, mark_in};
use crate::named::named_in;
use crate::standing::Standing;
use crate::text_cause::TextCause;
use crate::values::{
    NO_KEY, begins_with_key, has_leading_zero, has_zero, is_sha1, read_blob, read_bytes, read_sha1,
};
use crate::word::{Order, Word, order_in};
use key_text::after_blanks;
use krl_entries::Revocations;
use krl_spec::{Directive, SpecCause, Under, add_order, add_subject, ask, bare_line, key_line};
use serial_set::Spans;
use ssh_cert::Subject;
use std::alloc::Global;

// A line, and its content without a last day.
#[derive(Clone, Copy)]
struct Parts<'a> {
    line: &'a [u8],
    content: &'a [u8],
}

/// Does what a line says: its authority is current or has a name from now on, or its entry is held,
/// unless its last day is over. After a key, a hash or a certificate no authority is current.
#[tactic(auto, unfolding(crate::specs::Says::line_says))]
pub fn take_line<S: Spans>(
    alloc: Global,
    revocations: &mut Revocations<S>,
    standing: &mut Standing,
    line: &[u8],
) -> Result<(), TextCause>
    ensures { TakesLine (line_says standing.old line.now) result standing.old standing.new
        revocations.old revocations.new }
{
    let content = bare_line(line);
    match until_in(content) {
        Some(behind) => {
            let content = dated_content(behind);
            let day = last_day(behind);
            take_ending(alloc, revocations, standing, Parts { line, content }, day)
        }
        None if is_misplaced(line, content) => Err(TextCause::DateInComment),
        None => take_content(alloc, revocations, standing, Parts { line, content }),
    }
}

// Whether the comment of an entry has a day, which was meant to be its last one.
fn is_misplaced(line: &[u8], content: &[u8]) -> bool
    ensures { result ≡ is_misplaced line.now content.now }
{
    !content.is_empty()
        && content.len() < line.len()
        && has_day_in_comment(line)
        && named_in(content).is_entry()
}

// Does what a line's content with a last day says, unless that day is over.
fn take_ending<S: Spans>(
    alloc: Global,
    revocations: &mut Revocations<S>,
    standing: &mut Standing,
    parts: Parts<'_>,
    day: Option<i32>,
) -> Result<(), TextCause>
    ensures { TakesLine (ending_says standing.old parts.entry.line.now parts.entry.content.now day)
        result standing.old standing.new revocations.old revocations.new }
{
    let Some(day) = day else {
        return Err(TextCause::BadDate);
    };
    if !named_in(parts.content).can_end() {
        return Err(TextCause::NoLastDay);
    }
    if !is_over(standing.today, day) {
        return take_content(alloc, revocations, standing, parts);
    }
    let mut unheld: Revocations<S> = Revocations::new(alloc);
    take_content(alloc, &mut unheld, standing, parts)?;
    standing.over = standing.over.saturating_add(1);
    Ok(())
}

// Does what a line's content without a last day says.
#[tactic(auto, unfolding(crate::specs::Says::content_says))]
fn take_content<S: Spans>(
    alloc: Global,
    revocations: &mut Revocations<S>,
    standing: &mut Standing,
    parts: Parts<'_>,
) -> Result<(), TextCause>
    ensures { TakesLine (content_says standing.old parts.entry.line.now parts.entry.content.now)
        result standing.old standing.new revocations.old revocations.new }
{
    let Parts { line, content } = parts;
    if let Some(order) = order_in(content) {
        return take_order(alloc, revocations, standing, line, order);
    }
    match mark_in(content) {
        Some(mark) => take_mark(alloc, revocations, standing, line, mark),
        None if content.is_empty() => Ok(()),
        None => end_authority(standing, add_bare_key(alloc, revocations, content)),
    }
}

// Does what a line with this word says.
fn take_order<S: Spans>(
    alloc: Global,
    revocations: &mut Revocations<S>,
    standing: &mut Standing,
    line: &[u8],
    order: Order<'_>,
) -> Result<(), TextCause>
    ensures { TakesLine
        (word_says standing.old.current line.now order.entry.word order.entry.given.now) result
        standing.old standing.new revocations.old revocations.new }
{
    let given = order.given;
    match order.word {
        Word::Authority => {
            standing.current = Some(read_authority(alloc, given)?);
            Ok(())
        }
        Word::AuthorityBlob => {
            standing.current = Some(read_authority_blob(alloc, given)?);
            Ok(())
        }
        Word::Serial => add_serial(alloc, revocations, under(&standing.current), given),
        Word::Id => add_id(alloc, revocations, under(&standing.current), line, given),
        Word::IdHex => add_id_hex(alloc, revocations, under(&standing.current), given),
        Word::Key => end_authority(
            standing,
            add_keyed(alloc, revocations, Directive::Key, given),
        ),
        Word::KeyBlob => end_authority(standing, add_key_blob(alloc, revocations, given)),
        Word::Sha1 => end_authority(
            standing,
            add_keyed(alloc, revocations, Directive::Sha1, given),
        ),
        Word::Sha256 => {
            end_authority(
                standing,
                add_keyed(alloc, revocations, Directive::Sha256, given),
            )
        }
        Word::Hash => end_authority(standing, add_hash(alloc, revocations, given)),
    }
}

// Does what a line with this mark says.
fn take_mark<S: Spans>(
    alloc: Global,
    revocations: &mut Revocations<S>,
    standing: &mut Standing,
    line: &[u8],
    mark: Mark<'_>,
) -> Result<(), TextCause>
    ensures { TakesLine
        (mark_says standing.old.names line.now mark.entry.name.now mark.entry.rest.now) result
        standing.old standing.new revocations.old revocations.new }
{
    match mark.given() {
        Some(given) => declare(alloc, &mut standing.names, mark.name, given),
        None => add_marked(alloc, revocations, &standing.names, line, mark),
    }
}

// Gives a name to an authority.
fn declare(
    alloc: Global,
    names: &mut AuthorityNames,
    name: &[u8],
    given: &[u8],
) -> Result<(), TextCause>
    ensures { DeclaresName name.now (declares names.old name.now given.now) result
        names.old names.new }
{
    if !is_name(name) {
        return Err(TextCause::BadName);
    }
    let key = read_key(alloc, given)?;
    if !names.can_have(name, key.as_slice()) {
        return Err(TextCause::OtherKey);
    }
    names.add(name, key)?;
    Ok(())
}

// Adds the entry of a certificate, under the authority that has this name.
fn add_marked<S: Spans>(
    alloc: Global,
    revocations: &mut Revocations<S>,
    names: &AuthorityNames,
    line: &[u8],
    mark: Mark<'_>,
) -> Result<(), TextCause>
    ensures { TakesEntry (marked_entry names.now line.now mark.entry.name.now
        (order_in (after_blanks mark.entry.rest.now))) result revocations.old revocations.new }
{
    let Some(order) = order_in(after_blanks(mark.rest)) else {
        return Err(TextCause::MarkedWord);
    };
    let given = order.given;
    match order.word {
        Word::Serial => add_serial(alloc, revocations, names.authority(mark.name)?, given),
        Word::Id => add_id(alloc, revocations, names.authority(mark.name)?, line, given),
        Word::IdHex => add_id_hex(alloc, revocations, names.authority(mark.name)?, given),
        _ => Err(TextCause::MarkedWord),
    }
}

// No authority is current after an entry that was added.
fn end_authority(standing: &mut Standing, added: Result<(), TextCause>) -> Result<(), TextCause>
    ensures { (read : Result EntryOf TextCauseOf) (old new : RevocationsOf)
        → TakesEntry read added old new
        → TakesLine (names_says read) result standing.old standing.new old new }
{
    match added {
        Ok(()) => {
            standing.current = None;
            Ok(())
        }
        Err(cause) => Err(cause),
    }
}

// Adds the entry of a directive of specification files.
fn add_directive<S: Spans>(
    alloc: Global,
    revocations: &mut Revocations<S>,
    under: Under<'_>,
    directive: Directive,
    given: &[u8],
) -> Result<(), TextCause>
    ensures { TakesEntry
        (spec_entry (order_entry (authority_under under.entry) directive given.now)) result
        revocations.old revocations.new }
{
    match add_order(alloc, revocations, under, directive, given) {
        Ok(()) => Ok(()),
        Err(cause) => Err(TextCause::Spec(cause)),
    }
}

// Adds serial numbers.
fn add_serial<S: Spans>(
    alloc: Global,
    revocations: &mut Revocations<S>,
    under: Under<'_>,
    given: &[u8],
) -> Result<(), TextCause>
    ensures { TakesEntry (serial_entry (authority_under under.entry) given.now) result
        revocations.old revocations.new }
{
    if has_leading_zero(given) {
        return Err(TextCause::LeadingZero);
    }
    add_directive(alloc, revocations, under, Directive::Serial, given)
}

// Adds a key ID as it is.
fn add_id<S: Spans>(
    alloc: Global,
    revocations: &mut Revocations<S>,
    under: Under<'_>,
    line: &[u8],
    given: &[u8],
) -> Result<(), TextCause>
    ensures { TakesEntry (id_entry (authority_under under.entry) line.now given.now) result
        revocations.old revocations.new }
{
    if is_cut(line) {
        return Err(TextCause::CutId);
    }
    if has_control(given) {
        return Err(TextCause::ControlInId);
    }
    if let Some(cause) = no_id(given) {
        return Err(cause);
    }
    add_directive(alloc, revocations, under, Directive::Id, given)
}

// Adds a key ID that is given by its bytes.
fn add_id_hex<S: Spans>(
    alloc: Global,
    revocations: &mut Revocations<S>,
    under: Under<'_>,
    given: &[u8],
) -> Result<(), TextCause>
    ensures { TakesEntry (id_hex_entry (authority_under under.entry) given.now) result
        revocations.old revocations.new }
{
    let Some(authority) = bytes_of(under) else {
        return Err(TextCause::Spec(SpecCause::NoAuthority));
    };
    let id = read_bytes(alloc, given)?;
    if has_zero(id.as_slice()) {
        return Err(TextCause::ZeroInId);
    }
    revocations.add_id(authority, id.as_slice())?;
    Ok(())
}

// Adds a key or its hash, if nothing is before the key.
fn add_keyed<S: Spans>(
    alloc: Global,
    revocations: &mut Revocations<S>,
    directive: Directive,
    given: &[u8],
) -> Result<(), TextCause>
    ensures { TakesEntry (keyed_entry directive given.now) result
        revocations.old revocations.new }
{
    if !begins_with_key(given) {
        return Err(NO_KEY);
    }
    add_directive(alloc, revocations, Under::NotGiven, directive, given)
}

// Adds a key that is given by its bytes.
fn add_key_blob<S: Spans>(
    alloc: Global,
    revocations: &mut Revocations<S>,
    given: &[u8],
) -> Result<(), TextCause>
    ensures { TakesEntry (key_blob_entry given.now) result revocations.old revocations.new }
{
    let blob = read_blob(alloc, given)?;
    revocations.add_key(blob.as_slice())?;
    Ok(())
}

// Adds a key that is given by its hash.
fn add_hash<S: Spans>(
    alloc: Global,
    revocations: &mut Revocations<S>,
    given: &[u8],
) -> Result<(), TextCause>
    ensures { TakesEntry (hash_entry given.now) result revocations.old revocations.new }
{
    if is_sha1(given) {
        return add_sha1(alloc, revocations, given);
    }
    add_directive(alloc, revocations, Under::NotGiven, Directive::Hash, given)
}

// Adds a key that is given by its SHA-1.
fn add_sha1<S: Spans>(
    alloc: Global,
    revocations: &mut Revocations<S>,
    given: &[u8],
) -> Result<(), TextCause>
    requires { is_sha1 given.now ≡ true }
    ensures { TakesEntry (sha1_entry given.now) result revocations.old revocations.new }
{
    let hash = read_sha1(alloc, given)?;
    revocations.add_sha1(&hash)?;
    Ok(())
}

// Adds the entry of a key line.
fn add_bare_key<S: Spans>(
    alloc: Global,
    revocations: &mut Revocations<S>,
    content: &[u8],
) -> Result<(), TextCause>
    ensures { TakesEntry (bare_key_entry content.now) result revocations.old revocations.new }
{
    if !begins_with_key(content) {
        return Err(TextCause::UnknownWord);
    }
    let line = match key_line(alloc, content) {
        Ok(line) => line,
        Err(cause) => return Err(TextCause::Spec(cause)),
    };
    match ask(alloc, line.blob.as_slice()) {
        Ok(asked) => add_asked(revocations, &asked),
        Err(cause) => Err(TextCause::Spec(cause)),
    }
}

// Adds the entry of a plain key or of a certificate.
fn add_asked<S: Spans>(
    revocations: &mut Revocations<S>,
    asked: &Subject<'_>,
) -> Result<(), TextCause>
    ensures { TakesEntry (whole_entry (names_entry asked.now.plain asked.now.cert)) result
        revocations.old revocations.new }
{
    if has_zero_id(asked) {
        return Err(TextCause::ZeroInId);
    }
    add_subject(revocations, asked)?;
    Ok(())
}

// Whether the entry of a certificate is a key ID with a zero byte.
fn has_zero_id(asked: &Subject<'_>) -> bool
    ensures { result ≡ has_zero_id (names_entry asked.now.plain asked.now.cert) }
{
    match &asked.cert {
        Some(names) if names.serial == 0 => has_zero(names.key_id),
        _ => false,
    }
}

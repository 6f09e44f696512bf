//! The line about a list that was made (krl(1), KRL MAKE).

ghost use Rattle.std.specs.Prelude.{◌≡◌, ◌==◌, ◌+◌, ◌<◌, ◌^◌, IfOk};
ghost use Rattle.text_run.specs.Making.{counts_of};
ghost use Rattle.text_run.specs.Said.{amounts, lost_part, made_line, names_in, over_part, words};

use crate::counting::count;
use crate::listed::Facts;
use itoa::Buffer;
use line_pieces::{Printed, Visible, Words, put};
use list_text::Counts;
use std::alloc::{AllocError, Global};

// A number of up to 128 bits.
#[derive(Clone, Copy)]
struct Total(u128);

impl Printed for Total {
    ghost use Rattle.std.specs.Prelude.{decimal};

    ghost text = { λ total. decimal total.0 };

    fn push_to(&self, out: &mut Vec<u8>) -> Result<(), AllocError> {
        let mut digits = Buffer::new();
        out.extend_from_slice(digits.format(self.0).as_bytes())
    }
}

// A number of things after a comma, if there are any.
#[derive(Clone, Copy)]
struct Part(u128, &'static [u8]);

impl Printed for Part {
    ghost use Rattle.text_run.specs.Said.{part};

    ghost text = { λ amount. part amount.0 amount.1.now };

    fn push_to(&self, out: &mut Vec<u8>) -> Result<(), AllocError> {
        if self.0 == 0 {
            return Ok(());
        }
        let plural: &[u8] = if self.0 == 1 { b"" } else { b"s" };
        put!(out; b", ", Total(self.0), b" ", Words(self.1), Words(plural))
    }
}

// That entries are over, if there are any.
#[derive(Clone, Copy)]
struct OverPart(u64);

impl Printed for OverPart {
    ghost text = { λ part. over_part part.0 };

    fn push_to(&self, out: &mut Vec<u8>) -> Result<(), AllocError> {
        match self.0 {
            0 => Ok(()),
            1 => put!(out; b"; ", b"1 entry is over"),
            over => put!(out; b"; ", over, b" entries are over"),
        }
    }
}

/// The line that says which list was made: its name, its version, how many authorities, serial
/// numbers, key IDs, keys and hashes it names, how many that only the list before it names, and how
/// many entries are over.
pub fn made_line(alloc: Global, name: &str, facts: &Facts) -> Result<Vec<u8>, AllocError>
    ensures { IfOk result (λ line. line.items ≡ made_line name.now facts.now.version
        (counts_of facts.now.revocations) (counts_of facts.now.lost) facts.now.over) }
{
    let amounts = amounts(alloc, &count(&facts.revocations))?;
    let lost = lost_part(alloc, &count(&facts.lost))?;
    let mut line = Vec::new(alloc);
    put!(&mut line; b"krl make: ", Visible(name.as_bytes(), false), b": version ", facts.version,
        b": ", Words(words(&amounts)), Words(&lost), OverPart(facts.over), b"\n")?;
    Ok(line)
}

// That names are no longer revoked, if there are any.
fn lost_part(alloc: Global, lost: &Counts) -> Result<Vec<u8>, AllocError>
    ensures { IfOk result (λ text. text.items ≡ lost_part lost.now) }
{
    let mut text = Vec::new(alloc);
    if is_none(lost) {
        return Ok(text);
    }
    let verb: &[u8] = if is_one(lost) { b" is" } else { b" are" };
    let unnamed = Counts {
        authorities: 0,
        ..*lost
    };
    let amounts = amounts(alloc, &unnamed)?;
    put!(&mut text; b"; ", Words(words(&amounts)), Words(verb), b" no longer revoked")?;
    Ok(text)
}

// Whether nothing is named.
fn is_none(counts: &Counts) -> bool
    ensures { result ≡ (names_in counts.now == 0) }
{
    counts.serials == 0 && other_names(counts) == 0
}

// Whether one serial number, key ID, key or hash is named.
fn is_one(counts: &Counts) -> bool
    ensures { result ≡ (names_in counts.now == 1) }
{
    if counts.serials > 1 {
        return false;
    }
    counts.serials + other_names(counts) == 1
}

// How many key IDs, keys and hashes are named.
fn other_names(counts: &Counts) -> u128
    ensures value { result ≡ counts.now.ids + (counts.now.keys + counts.now.hashes) }
    ensures small { result < 2 ^ 66 }
{
    counts.ids as u128 + (counts.keys as u128 + counts.hashes as u128)
}

// How much there is of each kind, each after a comma.
fn amounts(alloc: Global, counts: &Counts) -> Result<Vec<u8>, AllocError>
    ensures { IfOk result (λ text. text.items ≡ amounts counts.now) }
{
    let mut text = Vec::new(alloc);
    put!(&mut text; Part(counts.authorities as u128, b"CA"),
        Part(counts.serials, b"serial number"), Part(counts.ids as u128, b"key ID"),
        Part(counts.keys as u128, b"key"), Part(counts.hashes as u128, b"hashed key"))?;
    Ok(text)
}

// The amounts without the first comma, or that there is nothing.
fn words(amounts: &[u8]) -> &[u8]
    ensures { result.now ≡ words amounts.now }
{
    if amounts.len() < 2 {
        b"nothing"
    } else {
        &amounts[2..]
    }
}

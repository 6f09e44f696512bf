//! A list that is made of texts, over the list under its name.

ghost use Rattle.std.specs.Prelude.{◌≡◌, IfErr, IfOk, MatchOption, Ok, unwrap_or};
ghost use Rattle.text_run.specs.Making.{IsWritten};
ghost use Rattle.text_run.specs.Over.{HasNames, IsEnough, IsHeld, IsMerged, IsRefused};
ghost use Rattle.text_run.specs.Over.{IsTooLittle, IsUnadded, over_asked, version_over};
ghost use Rattle.text_run.specs.Over.{wanted_over};

use crate::adding::add_texts;
use crate::base::read_base;
use crate::content::first_mute;
use crate::inputs::{Inputs, Over};
use crate::make_fault::{MakeCause, MakeFault};
use crate::names::names_of;
use byte_streams::Source;
use krl_core::{Header, Revocations};
use krl_writer::{TextFault, krl_text};
use list_diff::difference;
use list_making::{Made, Maker, next_version};
use run_faults::Cause;
use span_sets::Held;
use ssh_wire::Bytes;
use std::alloc::Global;
use text_entries::NamesByKey;

// The version of a list that follows no other.
const FIRST: u64 = 1;

/// The facts about a list that was made: its version, and what it names.
#[derive(Drop)]
pub struct Facts {
    /// Its version.
    pub version: u64,
    /// The revocations that it has.
    pub revocations: Revocations<Held>,
    /// The revocations that only the list before it has.
    pub lost: Revocations<Held>,
    /// How many lines of the texts had a last day that is over.
    pub over: u64,
    /// The names that the texts give to authorities.
    pub names: NamesByKey,
}

/// The outcome of making texts into a list: the version, and what is held of the old list and the
/// texts, if the list names what the old one names.
#[derive(Drop)]
pub struct Merged {
    /// The version.
    pub version: u64,
    /// The revocations of the old list and of the texts.
    pub revocations: Option<Revocations<Held>>,
    /// The revocations that only the old list has.
    pub lost: Revocations<Held>,
}

/// The revocations that the texts of a list name.
#[derive(Drop)]
pub struct Listed<'a> {
    /// The list that is asked for.
    pub inputs: &'a Inputs<'a>,
    /// The revocations that its texts name.
    pub revocations: Revocations<Held>,
    /// How many lines of its texts had a last day that is over.
    pub over: u64,
    /// The names that its texts give to authorities.
    pub names: NamesByKey,
}

/// The revocations that texts name, or their first fault. A text without an entry is a fault too,
/// and so is nothing, unless it is allowed.
pub fn read_texts<'a>(alloc: Global, inputs: &'a Inputs<'a>) -> Result<Listed<'a>, MakeFault<'a>>
    ensures same { IfOk result (λ list. list.inputs.now ≡ inputs.now) }
    ensures read { IfOk result (λ list. IsHeld inputs.now list.revocations) }
    ensures over { IfOk result (λ list. over_asked inputs.now ≡ Ok list.over) }
    ensures names { IfOk result (λ list. HasNames inputs.now list.names) }
    ensures refused { IfErr result (IsRefused inputs.now) }
{
    let mut revocations: Revocations<Held> = Revocations::new(alloc);
    let standing = add_texts(alloc, &mut revocations, inputs.day(), inputs.texts)?;
    if let Some(fault) = why_refused(inputs, &revocations) {
        return Err(fault);
    }
    match names_of(&standing, inputs.name) {
        Ok(names) => Ok(Listed {
            inputs,
            revocations,
            over: standing.over(),
            names,
        }),
        Err(fault) => Err(fault),
    }
}

// Why texts without a fault are refused. A list that names all that the old one names needs none.
fn why_refused<'a>(inputs: &'a Inputs<'a>, revocations: &Revocations<Held>) -> Option<MakeFault<'a>>
    ensures { MatchOption result (IsEnough inputs.now revocations.now)
        (IsTooLittle inputs.now revocations.now) }
{
    if inputs.allow_empty {
        return None;
    }
    if let Some(text) = first_mute(inputs.texts) {
        return Some(MakeFault::whole(text.name, MakeCause::NoEntry));
    }
    match inputs.over {
        Over::Nothing | Over::Version if revocations.is_nothing() => {
            Some(MakeFault::whole(inputs.name, MakeCause::Empty))
        }
        _ => None,
    }
}

// The version of a list with this version, or over that of the old list.
fn version_over(given: Option<u64>, stated: Option<u64>) -> Result<u64, MakeCause>
    ensures value { result ≡ version_over given stated }
{
    if let (Some(given), Some(stated)) = (given, stated)
        && given <= stated
    {
        return Err(MakeCause::OldVersion);
    }
    match next_version(given, stated, FIRST) {
        Some(version) => Ok(version),
        None => Err(MakeCause::Run(Cause::VersionFull)),
    }
}

// The revocations of the old list and the texts, or of the texts alone.
fn held_of<'a>(
    merged: &'a Option<Revocations<Held>>,
    listed: &'a Revocations<Held>,
) -> &'a Revocations<Held>
    ensures { result.now ≡ unwrap_or merged.now listed.now }
{
    match merged {
        Some(merged) => merged,
        None => listed,
    }
}

impl<'a> Listed<'a> {
    // Adds what the texts name to what is taken over from the old list, if that is all of it.
    fn merge(
        &self,
        alloc: Global,
        taken: Revocations<Held>,
    ) -> Result<Option<Revocations<Held>>, MakeFault<'a>>
        ensures merged { IfOk result (IsMerged self.now.inputs.now taken) }
        ensures refused { IfErr result (IsUnadded self.now.inputs.now) }
    {
        let Over::Contents = self.inputs.over else {
            return Ok(None);
        };
        let mut merged = taken;
        match add_texts(alloc, &mut merged, self.inputs.day(), self.inputs.texts) {
            Ok(_) => Ok(Some(merged)),
            Err(fault) => Err(fault),
        }
    }

    // The bytes of the list of this version, with the given comment or that of the old list.
    fn write(
        &self,
        alloc: Global,
        version: u64,
        old: Bytes,
        revocations: &Revocations<Held>,
    ) -> Result<Vec<u8>, MakeFault<'a>>
        ensures { IsWritten (λ made. made.items)
            (wanted_over self.now.inputs.now old version) revocations.now result }
    {
        let comment = match self.inputs.comment {
            None => old,
            Some(text) => match Vec::from_slice(alloc, text.as_bytes()) {
                Ok(text) => Bytes::from_vec(text),
                Err(_) => return Err(self.fault(Cause::NoMemory)),
            },
        };
        let header = Header {
            version,
            date: self.inputs.date,
            comment,
        };
        match krl_text(alloc, &header, revocations) {
            Ok(bytes) => Ok(bytes),
            Err(TextFault::NoMemory) => Err(self.fault(Cause::NoMemory)),
            Err(TextFault::TooLong) => Err(self.fault(Cause::TextTooLong)),
        }
    }
}

impl<'a> Maker for Listed<'a> {
    ghost use Rattle.text_run.specs.Base.{is_read};
    ghost use Rattle.text_run.specs.Over.{IsMadeOver, Refuses, fault_of};

    type Facts = Merged;

    type Fault = MakeFault<'a>;

    ghost reads = { λ list. is_read list.inputs.now.over };

    ghost makes = { λ list old bytes merged.
        IsMadeOver list.inputs.now list.revocations old bytes merged };

    ghost refuses = { λ list old fault. Refuses list.inputs.now list.revocations old fault };

    ghost fault_of = { λ list cause. fault_of list.inputs.now cause };

    fn reads_old(&self) -> bool {
        match self.inputs.over {
            Over::Nothing => false,
            Over::Version | Over::Contents => true,
        }
    }

    fn make<R: Source + Drop>(
        &self,
        alloc: Global,
        old: Option<R>,
    ) -> Result<Made<Merged>, MakeFault<'a>> {
        let base = match read_base(alloc, self.inputs, old) {
            Ok(base) => base,
            Err(cause) => return Err(self.fault(cause)),
        };
        let version = match version_over(self.inputs.version, base.version) {
            Ok(version) => version,
            Err(cause) => return Err(MakeFault::whole(self.inputs.name, cause)),
        };
        let revocations = match self.merge(alloc, base.revocations) {
            Ok(merged) => merged,
            Err(fault) => return Err(fault),
        };
        let held = held_of(&revocations, &self.revocations);
        let lost = match difference(alloc, held, &base.before) {
            Ok(lost) => lost,
            Err(_) => return Err(self.fault(Cause::NoMemory)),
        };
        match self.write(alloc, version, base.comment, held) {
            Ok(bytes) => {
                let facts = Merged {
                    version,
                    revocations,
                    lost,
                };
                Ok(Made { bytes, facts })
            }
            Err(fault) => Err(fault),
        }
    }

    fn fault(&self, cause: Cause) -> MakeFault<'a> {
        MakeFault::whole(self.inputs.name, MakeCause::Run(cause))
    }
}

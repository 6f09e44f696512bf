//! `krl make`: a list that is made of texts and put under its name.

ghost use Rattle.std.specs.Prelude.{◌≡◌, ◌⊎◌};
ghost use Rattle.krl.specs.Make.{IsAsked, IsListOver, IsMade, over_of};
ghost use Rattle.text_run.specs.Fault.{whole_fault};
ghost use Rattle.text_run.specs.declared.make_fault.MakeCause.TheVariants.{Run};

use crate::Krl;
use crate::ending::fail_to_make;
use crate::loading::{open, texts_of};
use any_list::Lists;
use audit_lines::Refusal;
use byte_streams::{Lent, ToWrite};
use krl_arguments::Make;
use krl_system::{date, read_list};
use list_file::ListTarget;
use list_making::Made;
use program_edge::{end, print_line};
use run_faults::{Cause, FileFault};
use run_output::FAILED;
use show_run::{Comparison, diff_run};
use ssh_wire::Bytes;
use std::alloc::Global;
use text_entries::NamesByKey;
use text_run::{Facts, Inputs, MakeCause, MakeFault, Over, Text, list_over, made_line, text_run};

/// Makes the list of the task, or prints what making it would change. Returns the exit status.
pub fn make<'a>(rt: &'a HostRuntime, task: &Make<'a>) -> u8
    ensures { (result ≡ 255) ⊎ ((result ≡ 0) × IsMade task.now) }
{
    let texts = match texts_of(rt, task.files.as_slice()) {
        Ok(texts) => texts,
        Err(fault) => return fail_to_make(rt, &fault, &[]),
    };
    let date = match date(rt) {
        Ok(date) => date,
        Err(cause) => return fail_to_make(rt, &fault_of(task.list, cause), &[]),
    };
    let inputs = inputs_of(&*task, date, texts.as_slice());
    if task.dry_run {
        return foresee(rt, task, &inputs);
    }
    let mut place = ListTarget::new(rt, crate::NAME, task.list);
    let made = text_run(rt.alloc(), &inputs, &mut place);
    place.release();
    match made {
        Ok(made) => {
            say_made(rt, task, &made.facts);
            0
        }
        Err(fault) => fail_to_make(rt, &fault, inputs.texts),
    }
}

// Prints what making a list would change, and makes nothing.
fn foresee<'i>(rt: &HostRuntime, task: &Make, inputs: &'i Inputs<'i>) -> u8
    ensures { (result ≡ 255) ⊎ ((result ≡ 0) × IsListOver inputs.now) }
{
    let old = match old_of(rt, task) {
        Ok(old) => old,
        Err(cause) => return fail_to_make(rt, &fault_of(task.list, cause), &[]),
    };
    let reader = match &old {
        Some(bytes) => Some(Lent::new(bytes.as_slice())),
        None => None,
    };
    let Made { bytes, facts } = match list_over(rt.alloc(), inputs, reader) {
        Ok(made) => made,
        Err(fault) => return fail_to_make(rt, &fault, inputs.texts),
    };
    let Some(nothing) = empty_list(rt.alloc()) else {
        return fail_to_make(rt, &fault_of(task.list, Cause::NoMemory), &[]);
    };
    say_made(rt, task, &facts);
    say_changes(
        rt,
        task.list,
        &facts.names,
        old.unwrap_or(nothing),
        Bytes::from_vec(bytes),
    )
}

// The bytes of the list that is there, if it is to be read and there is one. An empty file is none
// where the version is given.
fn old_of(rt: &HostRuntime, task: &Make) -> Result<Option<Bytes>, Cause> {
    if task.replace {
        return Ok(None);
    }
    match open(rt, task.list) {
        Ok(file) => {
            let bytes = read_list(rt.alloc(), file)?;
            let is_none = bytes.as_slice().is_empty() && task.version.is_some();
            Ok(if is_none { None } else { Some(bytes) })
        }
        Err(Refusal::Missing) => Ok(None),
        Err(_) => Err(Cause::File(FileFault::Open)),
    }
}

// Prints what the new list names and the old one does not, and the other way round.
fn say_changes(rt: &HostRuntime, list: &str, names: &NamesByKey, old: Bytes, new: Bytes) -> u8
    ensures { (result ≡ 255) ⊎ (result ≡ 0) }
{
    let mut sides = Sides {
        old: Some(old),
        new: Some(new),
    };
    let comparison = Comparison {
        old: list,
        new: list,
        json: false,
        names: Some(names),
    };
    let mut out = ToWrite::new(rt.stdout());
    let done = diff_run(rt.alloc(), &mut sides, comparison, &mut out);
    match end(rt, &Krl, &done) {
        FAILED => FAILED,
        _ => 0,
    }
}

// The bytes of a list that revokes nobody. None if an allocation fails.
fn empty_list(alloc: Global) -> Option<Bytes> {
    let inputs = Inputs {
        name: "",
        over: Over::Nothing,
        version: None,
        date: 0,
        comment: None,
        allow_empty: true,
        texts: &[],
    };
    match list_over(alloc, &inputs, None::<Lent>) {
        Ok(Made { bytes, .. }) => Some(Bytes::from_vec(bytes)),
        Err(_) => None,
    }
}

// The bytes of two lists: the old one is read first.
#[derive(Drop)]
struct Sides {
    old: Option<Bytes>,
    new: Option<Bytes>,
}

impl Lists for Sides {
    ghost use Rattle.std.specs.Prelude.{None};

    ghost told = { λ _. None };

    fn read(&mut self, _alloc: Global, _name: &str) -> Result<Bytes, Cause> {
        let side = match self.old.take() {
            Some(old) => Some(old),
            None => self.new.take(),
        };
        side.ok_or(Cause::File(FileFault::Open))
    }
}

// The list that the task asks for.
fn inputs_of<'a>(task: &Make<'a>, date: u64, texts: &'a [Text<'a>]) -> Inputs<'a>
    ensures { IsAsked task.now date texts.now result }
{
    Inputs {
        name: task.list,
        over: over_of(task.update, task.replace),
        version: task.version,
        date,
        comment: task.comment,
        allow_empty: task.allow_empty,
        texts,
    }
}

// How the list follows the one under its name. Both options together are a fault of the words.
fn over_of(update: bool, replace: bool) -> Over
    ensures { result ≡ over_of update replace }
{
    if update {
        Over::Contents
    } else if replace {
        Over::Nothing
    } else {
        Over::Version
    }
}

// Says which list was made, unless nothing is to be said.
fn say_made(rt: &HostRuntime, task: &Make, facts: &Facts) {
    if !task.quiet
        && let Ok(line) = made_line(rt.alloc(), task.list, facts)
    {
        print_line(rt, line.as_slice());
    }
}

// A fault of a text as a whole, or of the list.
fn fault_of<'a>(name: &'a str, cause: Cause) -> MakeFault<'a>
    ensures { result ≡ whole_fault name.now (Run cause) }
{
    MakeFault::whole(name, MakeCause::Run(cause))
}

//! `krl audit`: files of keys, audited by a list.

ghost use Rattle.std.specs.Prelude.{◌≡◌, false, IfErr, IfOk, IfSome};
ghost use Rattle.audit_run.specs.Reading.{SomeFailed};
ghost use Rattle.audit_run.specs.Run.{readers_of};
ghost use Rattle.krl.specs.Audit.{EndsAudit, IsAudited, IsAuditedBy, IsAuditedWith};
ghost use Rattle.krl.specs.Texts.{IsListBy};
ghost use Rattle.krl_audit.specs.Audit.{IsUsable};

use crate::Krl;
use crate::canaries::{Unmet, canaries_of};
use crate::disk::Disk;
use crate::ending::{end_audit, fail_in_words, fail_to_make};
use crate::loading::{bytes_of, texts_of};
use crate::screen::{Screen, terminal};
use crate::sshd::{sought_by, sshd_texts};
use crate::texts::{date_of, index_of, list_of};
use audit_run::{Loaded, Order, Sources, audit_run};
use byte_streams::{FromRead, Source};
use krl_arguments::Audit;
use krl_entries::Revocations;
use krl_fingerprints::KeysBy;
use program_edge::stop;
use run_faults::{Cause, FileFault, RunFault};
use span_sets::Held;
use ssh_wire::Bytes;
use sshd_files::SshdFile;
use std::fs::{self, File};
use std::io::Stdin;
use text_run::Text;

// Why no audit is made by a list that does not revoke a canary.
const UNMET: &[u8] =
    b"it must have a key and no line that is unread, and the list must revoke each \
of its keys [audit 1 Canary]";

// The bytes of the list of an audit, and what was read beside it.
#[derive(Drop)]
struct Asked<'a> {
    list: Bytes,
    loaded: Loaded<'a>,
}

/// Audits what the task names. Answers the exit status. An audit that has canaries is not begun by
/// a list that does not revoke each of them.
pub fn audit(rt: &HostRuntime, task: &Audit) -> u8
    ensures { IsAudited (SomeFailed ⟦<FromRead<File> as Source>⟧.has_failed)
        (SomeFailed ⟦<FromRead<Stdin> as Source>⟧.has_failed) task.now result }
{
    let outputs = match sshd_texts(rt, task) {
        Ok(outputs) => outputs,
        Err(status) => return status,
    };
    let sought = match sought_by(rt, task, &outputs) {
        Ok(sought) => sought,
        Err(status) => return status,
    };
    let files = sought.files.as_slice();
    match (task.list, sought.list) {
        (Some(list), _) => audit_by_list(rt, task, Some(list), list, files),
        (None, Some(list)) => audit_by_list(rt, task, Some(list), list, files),
        (None, None) => audit_by_list(rt, task, None, task.list_name(), files),
    }
}

// Audits what the task names by this list, or by the one that its texts make under this name, and
// first these files that sshds read.
fn audit_by_list<'a>(
    rt: &HostRuntime,
    task: &'a Audit<'a>,
    given: Option<&'a str>,
    name: &'a str,
    files: &'a [SshdFile],
) -> u8
    ensures { IsAuditedWith (SomeFailed ⟦<FromRead<File> as Source>⟧.has_failed)
        (SomeFailed ⟦<FromRead<Stdin> as Source>⟧.has_failed) task.now given.entry name.now
        files.now result }
{
    let texts = match texts_of(rt, task.texts.as_slice()) {
        Ok(texts) => texts,
        Err(fault) => return fail_to_make(rt, &fault, &[]),
    };
    let date = match date_of(rt, texts.as_slice()) {
        Ok(date) => date,
        Err(status) => return status,
    };
    let index = match index_of(rt, KeysBy::Blob, date, texts.as_slice()) {
        Ok(index) => index,
        Err(status) => return status,
    };
    let list = match asked_list(rt, given, name, date, texts.as_slice()) {
        Ok(list) => list,
        Err(status) => return status,
    };
    let loaded = Loaded {
        list: name,
        canaries: None,
        texts: index.as_ref(),
        sought: files,
    };
    audit_list(rt, task, list, loaded)
}

/// The bytes of the given list, or of the one that the texts make; otherwise the exit status.
pub fn asked_list<'a>(
    rt: &HostRuntime,
    given: Option<&str>,
    name: &'a str,
    date: u64,
    texts: &'a [Text<'a>],
) -> Result<Bytes, u8>
    ensures list { IfOk result (λ list. IsListBy given.entry name.now date texts.now list) }
    ensures refused { IfErr result (λ status. status ≡ 255) }
{
    let Some(given) = given else {
        return list_of(rt, name, date, texts);
    };
    match bytes_of(rt, given) {
        Ok(list) => Ok(list),
        Err(cause) => Err(stop(rt, &Krl, &RunFault::whole(given, cause))),
    }
}

// Audits what the task names by a list with these bytes, and by what was read beside it.
fn audit_list(rt: &HostRuntime, task: &Audit, list: Bytes, loaded: Loaded<'_>) -> u8
    requires texts { IsUsable loaded.texts }
    ensures { IsAuditedBy (SomeFailed ⟦<FromRead<File> as Source>⟧.has_failed)
        (SomeFailed ⟦<FromRead<Stdin> as Source>⟧.has_failed) task.now list loaded.entry result }
{
    let canaries = match asked_canaries(rt, task, loaded.list, list.as_slice()) {
        Ok(canaries) => canaries,
        Err(status) => return status,
    };
    let loaded = Loaded {
        list: loaded.list,
        canaries: canaries.as_ref(),
        texts: loaded.texts,
        sought: loaded.sought,
    };
    let asked = Asked { list, loaded };
    let input = FromRead::new(rt.stdin());
    match task.names_from {
        None => audit_by(rt, task, asked, None::<FromRead<File>>, input),
        Some("-") => audit_by(rt, task, asked, Some(FromRead::new(rt.stdin())), input),
        Some(name) => match fs::open(rt, name) {
            Ok(names) => audit_by(rt, task, asked, Some(FromRead::new(names)), input),
            Err(_) => {
                let cause = Cause::File(FileFault::Open);
                stop(rt, &Krl, &RunFault::whole(name, cause))
            }
        },
    }
}

// The keys of the canaries of the task, if the list of this name revokes each of them; otherwise
// the exit status.
fn asked_canaries(
    rt: &HostRuntime,
    task: &Audit,
    name: &str,
    list: &[u8],
) -> Result<Option<Revocations<Held>>, u8>
    ensures { IfErr result (λ status. status ≡ 255) }
{
    match canaries_of(rt, name, list, task.canary.as_slice()) {
        Ok(canaries) => Ok(canaries),
        Err(Unmet::At(name)) => Err(fail_in_words(rt, name, UNMET)),
        Err(Unmet::Stopped(fault)) => Err(stop(rt, &Krl, &fault)),
    }
}

// Audits what the task names by a list, first what sshds read, and then what a reader names.
fn audit_by<'a, N: Source + Drop, I: Source + Drop>(
    rt: &HostRuntime,
    task: &'a Audit<'a>,
    asked: Asked<'a>,
    names: Option<N>,
    input: I,
) -> u8
    requires texts { IsUsable asked.loaded.texts }
    requires names { IfSome names (λ names. N.has_failed names ≡ false) }
    requires input { I.has_failed input ≡ false }
    ensures { EndsAudit task.now asked.entry.list asked.entry.loaded
        (readers_of N.left N.has_failed names I.left I.has_failed input) result }
{
    let Asked { list, loaded } = asked;
    let order = Order::of(task, loaded, terminal(rt));
    let tree = &Disk::new(rt, task.exclude.as_slice(), task.one_file_system);
    let given = Sources { tree, names, input };
    let mut screen = Screen::new(rt);
    let audited = audit_run(rt.alloc(), &order, list, given, &mut screen);
    screen.wipe();
    end_audit(rt, loaded.list, audited)
}

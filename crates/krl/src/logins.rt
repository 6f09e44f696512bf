//! `krl logins`: the logins of logs, by keys and certificates that are revoked now.

ghost use Rattle.std.specs.Prelude.{◌≡◌, false};
ghost use Rattle.audit_run.specs.Reading.{SomeFailed};
ghost use Rattle.krl.specs.Logins.{EndsLoginsBy, IsSearched};
ghost use Rattle.krl_audit.specs.Audit.{IsUsable};

use crate::audit::asked_list;
use crate::disk::Disk;
use crate::ending::{end_logins, fail_to_make};
use crate::loading::texts_of;
use crate::screen::terminal;
use crate::texts::{date_of, index_of};
use byte_streams::{FromRead, Source, ToWrite};
use krl_arguments::Logins;
use krl_fingerprints::KeysBy;
use login_run::{LogSources, LoginOrder, logins_run};
use ssh_wire::Bytes;
use std::io::Stdin;
use text_index::TextIndex;

/// Searches the logs of the task for logins by revoked keys and certificates. Returns the exit
/// status.
pub fn logins(rt: &HostRuntime, task: &Logins) -> u8
    ensures { IsSearched (SomeFailed ⟦<FromRead<Stdin> as Source>⟧.has_failed) task.now result }
{
    let texts = match texts_of(rt, task.texts.as_slice()) {
        Ok(texts) => texts,
        Err(fault) => return fail_to_make(rt, &fault, &[]),
    };
    let date = match date_of(rt, texts.as_slice()) {
        Ok(date) => date,
        Err(status) => return status,
    };
    let index = match index_of(rt, KeysBy::Fingerprint, date, texts.as_slice()) {
        Ok(index) => index,
        Err(status) => return status,
    };
    let list = match asked_list(rt, task.list, task.list_name(), date, texts.as_slice()) {
        Ok(list) => list,
        Err(status) => return status,
    };
    search(rt, task, list, index.as_ref())
}

// Searches the logs by a list with these bytes and by these texts.
fn search(rt: &HostRuntime, task: &Logins, list: Bytes, texts: Option<&TextIndex<'_>>) -> u8
    requires texts { IsUsable texts }
    ensures { EndsLoginsBy (SomeFailed ⟦<FromRead<Stdin> as Source>⟧.has_failed) task.now list
        texts.entry result }
{
    let order = LoginOrder::of(task, texts, terminal(rt));
    let tree = &Disk::new(rt, &[], false);
    let input = FromRead::new(rt.stdin());
    let mut out = ToWrite::new(rt.stdout());
    let ended = logins_run(
        rt.alloc(),
        &order,
        list,
        LogSources { tree, input },
        &mut out,
    );
    end_logins(rt, task.list_name(), ended)
}

//! `krl show`: lists, printed as texts.

ghost use Rattle.std.specs.Prelude.{◌≡◌};
ghost use Rattle.krl.specs.Runs.{IsShown, shown_form};

use crate::Krl;
use crate::loading::ListFiles;
use crate::names::names_of;
use byte_streams::ToWrite;
use krl_arguments::Show;
use list_text::Form;
use program_edge::end;
use show_run::show_run;
use text_entries::NamesByKey;

/// Shows the lists of the task. Returns the exit status.
pub fn show(rt: &HostRuntime, task: &Show) -> u8
    ensures { IsShown task.now result }
{
    let names = match names_of(rt, task.names.as_slice()) {
        Ok(names) => names,
        Err(status) => return status,
    };
    let form = form_of(task.json, task.no_name, names.as_ref());
    let mut out = ToWrite::new(rt.stdout());
    let mut files = ListFiles { rt };
    let done = show_run(
        rt.alloc(),
        &mut files,
        task.lists.as_slice(),
        form,
        &mut out,
    );
    end(rt, &Krl, &done)
}

// The form in which lists are shown.
fn form_of(json: bool, no_name: bool, names: Option<&NamesByKey>) -> Form<'_>
    ensures { result ≡ shown_form json no_name names.entry }
{
    match (json, no_name) {
        (true, false) => Form::Json(names),
        (true, true) => Form::JsonUnnamed(names),
        (false, false) => Form::Text(names),
        (false, true) => Form::Unnamed(names),
    }
}

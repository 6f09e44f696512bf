//! Printing the contents of a list (ssh-keygen(1), options -Q and -l).

ghost use Rattle.run_output.specs.Carries.{Carries};
ghost use Rattle.krl_runs.specs.Contents.{all_said, comment_lines, contents_lines, header_lines};
ghost use Rattle.krl_runs.specs.Contents.{known_lines, known_of};

pub(crate) mod fact;
pub(crate) mod lines;

use crate::contents::fact::write_fact;
use crate::contents::lines::{write_comment, write_date, write_version};
use byte_streams::Sink;
use krl_core::{Header, Revocations};
use run_faults::RunFault;
use run_output::Run;
use serial_set::Spans;

/// Prints the contents of a list: a line for each fact of its header, and then each authority with
/// its serials and key IDs, the keys and the hashes.
pub fn print_contents<'a, S: Spans, W: Sink>(
    run: &mut Run<W>,
    name: &'a str,
    header: &Header,
    list: &Revocations<S>,
) -> Result<(), RunFault<'a>>
    ensures { Carries (all_said name.now (known_lines (known_of header.now list.now))) result
        run.old.printer run.new.printer }
{
    print_header(run, name, header)?;
    print_held(run, name, list)
}

// Prints the version, the date and the comment of a list.
fn print_header<'a, W: Sink>(
    run: &mut Run<W>,
    name: &'a str,
    header: &Header,
) -> Result<(), RunFault<'a>>
    ensures { Carries (all_said name.now (header_lines header.now)) result
        run.old.printer run.new.printer }
{
    let made = write_version(header.version, &mut run.line);
    run.say_line(name, made)?;
    let made = write_date(run.alloc, header.date, &mut run.line);
    run.say_line(name, made)?;
    print_comment(run, name, header.comment.as_slice())
}

// Prints the line of a comment, if there is one.
fn print_comment<'a, W: Sink>(
    run: &mut Run<W>,
    name: &'a str,
    comment: &[u8],
) -> Result<(), RunFault<'a>>
    ensures { Carries (all_said name.now (comment_lines comment.now)) result
        run.old.printer run.new.printer }
{
    if comment.is_empty() {
        return Ok(());
    }
    let made = write_comment(comment, &mut run.line);
    run.say_line(name, made)
}

// Prints the authorities, the keys and the hashes.
fn print_held<'a, S: Spans, W: Sink>(
    run: &mut Run<W>,
    name: &'a str,
    list: &Revocations<S>,
) -> Result<(), RunFault<'a>>
    ensures { Carries (all_said name.now (contents_lines list.now)) result
        run.old.printer run.new.printer }
{
    for fact in list.facts() {
        let made = write_fact(run.alloc, fact, &mut run.line);
        run.say_line(name, made)?;
    }
    Ok(())
}

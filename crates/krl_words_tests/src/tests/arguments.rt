//! The words of the command line of `krl`.

use krl_arguments::{Audit, Check, Diff, Logins, Make, Show, Task, task_of};
use option_table::CommandFault;
use std::alloc::Global;
use std::test::Fail;

// The version of the program.
const VERSION: &str = "12.3.45 (0123456789ab)";

// The audit that the words ask for, the program's name before them.
fn audit_by<'a>(alloc: Global, words: &'a [&'a str]) -> Result<Audit<'a>, &'static str> {
    match task_of(alloc, VERSION, words) {
        Ok(Task::Audit(audit)) => Ok(audit),
        _ => Err("the words ask for an audit"),
    }
}

// The search for logins that the words ask for.
fn logins_by<'a>(alloc: Global, words: &'a [&'a str]) -> Result<Logins<'a>, &'static str> {
    match task_of(alloc, VERSION, words) {
        Ok(Task::Logins(logins)) => Ok(logins),
        _ => Err("the words ask for logins"),
    }
}

// The check that the words ask for.
fn check_by<'a>(alloc: Global, words: &'a [&'a str]) -> Result<Check<'a>, &'static str> {
    match task_of(alloc, VERSION, words) {
        Ok(Task::Check(check)) => Ok(check),
        _ => Err("the words ask for a check"),
    }
}

// The lists that the words ask to show.
fn show_by<'a>(alloc: Global, words: &'a [&'a str]) -> Result<Show<'a>, &'static str> {
    match task_of(alloc, VERSION, words) {
        Ok(Task::Show(show)) => Ok(show),
        _ => Err("the words ask for lists"),
    }
}

// The list that the words ask to make.
fn make_by<'a>(alloc: Global, words: &'a [&'a str]) -> Result<Make<'a>, &'static str> {
    match task_of(alloc, VERSION, words) {
        Ok(Task::Make(make)) => Ok(make),
        _ => Err("the words ask for a list"),
    }
}

// The lists that the words ask to compare.
fn diff_by<'a>(alloc: Global, words: &'a [&'a str]) -> Result<Diff<'a>, &'static str> {
    match task_of(alloc, VERSION, words) {
        Ok(Task::Diff(diff)) => Ok(diff),
        _ => Err("the words ask for two lists"),
    }
}

// The status of words that ask for no task.
fn status_by(alloc: Global, words: &[&str]) -> Result<u8, &'static str> {
    match task_of(alloc, VERSION, words) {
        Ok(_) => Err("the words ask for nothing"),
        Err(fault) => Ok(fault.status()),
    }
}

#[test]
fn audits(rt: HostRuntime) -> Result<(), Fail> {
    let words = ["krl", "audit", "a", "-aqfk", "--json", "b", "--", "-a"];
    let audit = audit_by(rt.alloc(), &words)?;
    assert!(rt; audit.list == Some("k") && audit.list_name() == "k" && audit.texts.is_empty());
    assert!(rt; audit.all && audit.quiet && audit.json && audit.names_from.is_none());
    assert!(rt; audit.files.as_slice() == ["a", "b", "-a"].as_slice());
    assert!(rt; !audit.every_file);
    let words = ["krl", "audit", "--files0-from=-", "--all", "-f", "k"];
    let audit = audit_by(rt.alloc(), &words)?;
    assert!(rt; audit.list == Some("k"));
    assert!(rt; audit.every_file);
    assert!(rt; audit.names_from == Some("-") && audit.files.is_empty());
    assert!(rt; !audit.all && !audit.quiet && !audit.json && !audit.one_file_system);
    assert!(rt; audit.canary.is_empty() && audit.exclude.is_empty());
    let words = [
        "krl",
        "audit",
        "-xf",
        "-",
        "--canary",
        "c",
        "--exclude=.cache",
        "--canary=d",
        "--exclude",
        "sys",
        "a",
    ];
    let audit = audit_by(rt.alloc(), &words)?;
    assert!(rt; audit.list == Some("-") && audit.one_file_system && !audit.quiet);
    assert!(rt; audit.canary.as_slice() == ["c", "d"].as_slice());
    assert!(rt; audit.exclude.as_slice() == [".cache", "sys"].as_slice());
    let words = ["krl", "audit", "-f", "k", "-", "-"];
    let audit = audit_by(rt.alloc(), &words)?;
    assert!(rt; audit.files.as_slice() == ["-", "-"].as_slice());
    let words = ["krl", "audit", "-t", "a.txt", "x", "-tb.txt"];
    let audit = audit_by(rt.alloc(), &words)?;
    assert!(rt; audit.list.is_none() && audit.list_name() == "a.txt");
    assert!(rt; audit.texts.as_slice() == ["a.txt", "b.txt"].as_slice());
    let words = ["krl", "audit", "-t", "-", "-f", "k", "x"];
    let audit = audit_by(rt.alloc(), &words)?;
    assert!(rt; audit.list == Some("k") && audit.list_name() == "k");
    assert!(rt; audit.texts.as_slice() == ["-"].as_slice());
    Ok(())
}

#[test]
fn logins_are_searched(rt: HostRuntime) -> Result<(), Fail> {
    let words = ["krl", "logins", "a", "-aqfk", "--json", "b", "--", "-a"];
    let logins = logins_by(rt.alloc(), &words)?;
    assert!(rt; logins.list == Some("k") && logins.list_name() == "k" && logins.texts.is_empty());
    assert!(rt; logins.all && logins.quiet && logins.json);
    assert!(rt; logins.files.as_slice() == ["a", "b", "-a"].as_slice());
    let words = ["krl", "logins", "-f", "k", "-"];
    let logins = logins_by(rt.alloc(), &words)?;
    assert!(rt; logins.files.as_slice() == ["-"].as_slice());
    assert!(rt; !logins.all && !logins.quiet && !logins.json);
    let words = ["krl", "logins", "-t", "a.txt", "x", "-tb.txt", "-t-"];
    let logins = logins_by(rt.alloc(), &words)?;
    assert!(rt; logins.list.is_none() && logins.list_name() == "a.txt");
    assert!(rt; logins.texts.as_slice() == ["a.txt", "b.txt", "-"].as_slice());
    let words = ["krl", "logins", "-t", "a.txt", "-f", "-", "x"];
    let logins = logins_by(rt.alloc(), &words)?;
    assert!(rt; logins.list == Some("-") && logins.list_name() == "-");
    assert!(rt; logins.texts.as_slice() == ["a.txt"].as_slice());
    Ok(())
}

#[test]
fn audits_of_sshd(rt: HostRuntime) -> Result<(), Fail> {
    let words = ["krl", "audit", "--sshd", "-"];
    let audit = audit_by(rt.alloc(), &words)?;
    assert!(rt; audit.sshd.as_slice() == ["-"].as_slice() && audit.passwd.is_none());
    assert!(rt; audit.list.is_none() && audit.files.is_empty() && audit.command_output.is_empty());
    let words = [
        "krl",
        "audit",
        "--sshd=a",
        "--sshd=b",
        "--passwd",
        "-",
        "--command-output=c",
        "--command-output",
        "d",
        "e",
    ];
    let audit = audit_by(rt.alloc(), &words)?;
    assert!(rt; audit.sshd.as_slice() == ["a", "b"].as_slice() && audit.passwd == Some("-"));
    assert!(rt; audit.command_output.as_slice() == ["c", "d"].as_slice());
    assert!(rt; audit.files.as_slice() == ["e"].as_slice());
    Ok(())
}

#[test]
fn scans_and_labels(rt: HostRuntime) -> Result<(), Fail> {
    let words = ["krl", "audit", "-fk", "--scan", "--label", "web01: ", "-"];
    let audit = audit_by(rt.alloc(), &words)?;
    assert!(rt; audit.scan && !audit.every_file && audit.label == Some("web01: "));
    let words = ["krl", "audit", "-fk", "--all", "--label=-x", "--scan", "a"];
    let audit = audit_by(rt.alloc(), &words)?;
    assert!(rt; audit.scan && audit.every_file && audit.label == Some("-x"));
    let words = ["krl", "audit", "-fk", "--label", "", "a"];
    let audit = audit_by(rt.alloc(), &words)?;
    assert!(rt; audit.label == Some("") && audit.files.as_slice() == ["a"].as_slice());
    let words = ["krl", "audit", "-fk", "a"];
    let audit = audit_by(rt.alloc(), &words)?;
    assert!(rt; !audit.scan && audit.label.is_none());
    let refused: [&[&str]; 4] = [
        &["krl", "audit", "-fk", "--scan", "--scan", "a"],
        &["krl", "audit", "-fk", "--label", "a", "--label=b", "a"],
        &["krl", "audit", "-fk", "a", "--label"],
        &["krl", "logins", "-fk", "a", "--label", "b"],
    ];
    for (i, words) in refused.iter().enumerate() {
        assert!(rt; status_by(rt.alloc(), words)? == 2, "in row {i}");
    }
    Ok(())
}

#[test]
fn only_names_are_excluded(rt: HostRuntime) -> Result<(), Fail> {
    for excluded in ["", ".", "..", "/", "a/b", "a/"] {
        let words = [
            "krl",
            "audit",
            "-f",
            "k",
            "--exclude=a",
            "--exclude",
            excluded,
            ".",
        ];
        assert!(rt; status_by(rt.alloc(), &words)? == 2, "{excluded}");
    }
    let words = [
        "krl",
        "audit",
        "-f",
        "k",
        "--exclude=...",
        "--exclude",
        "..a",
        "a/b",
    ];
    let audit = audit_by(rt.alloc(), &words)?;
    assert!(rt; audit.exclude.as_slice() == ["...", "..a"].as_slice());
    Ok(())
}

#[test]
fn checks(rt: HostRuntime) -> Result<(), Fail> {
    let words = [
        "krl",
        "check",
        "--keep",
        "ca.pub",
        "k",
        "--canary=c",
        "--keep=b",
        "--canary",
        "d",
        "--max-age",
        "24h",
        "--allow-empty",
        "--json",
        "--newer-than",
        "o",
        "--names",
        "t",
        "--names=-",
    ];
    let check = check_by(rt.alloc(), &words)?;
    assert_eq!(rt; check.list, "k");
    assert!(rt; check.keep.as_slice() == ["ca.pub", "b"].as_slice());
    assert!(rt; check.canary.as_slice() == ["c", "d"].as_slice());
    assert!(rt; check.newer_than == Some("o") && check.max_age == Some(86_400));
    assert!(rt; check.names.as_slice() == ["t", "-"].as_slice());
    assert!(rt; check.allow_empty && check.json && !check.print_version);
    let check = check_by(rt.alloc(), &["krl", "check", "k", "--print-version"])?;
    assert!(rt; check.print_version && check.keep.is_empty() && check.max_age.is_none());
    assert!(rt; !check.allow_empty && !check.json && check.max_cas.is_none());
    assert!(rt; check.names.is_empty());
    let check = check_by(rt.alloc(), &["krl", "check", "-", "--max-cas", "0"])?;
    assert!(rt; check.list == "-" && check.max_cas == Some(0));
    for most in ["", "x", "-1", "9007199254740992"] {
        let words = ["krl", "check", "k", "--max-cas", most];
        assert!(rt; status_by(rt.alloc(), &words)? == 2, "{most}");
    }
    Ok(())
}

#[test]
fn shows(rt: HostRuntime) -> Result<(), Fail> {
    let show = show_by(rt.alloc(), &["krl", "show", "a", "--json", "b"])?;
    assert!(rt; show.json && show.lists.as_slice() == ["a", "b"].as_slice() && !show.no_name);
    let show = show_by(rt.alloc(), &["krl", "show", "--no-name", "--", "-a"])?;
    assert!(rt; !show.json && show.lists.as_slice() == ["-a"].as_slice() && show.no_name);
    assert!(rt; show.names.is_empty());
    let words = ["krl", "show", "--names", "-", "a", "--names=b"];
    let show = show_by(rt.alloc(), &words)?;
    assert!(rt; show.names.as_slice() == ["-", "b"].as_slice());
    assert!(rt; show.lists.as_slice() == ["a"].as_slice());
    Ok(())
}

#[test]
fn makes(rt: HostRuntime) -> Result<(), Fail> {
    let words = [
        "krl",
        "make",
        "-qf",
        "k",
        "-z",
        "7",
        "--comment",
        "c",
        "a",
        "--allow-empty",
        "-",
    ];
    let make = make_by(rt.alloc(), &words)?;
    assert!(rt; make.list == "k" && make.version == Some(7) && make.comment == Some("c"));
    assert!(rt; make.quiet && make.allow_empty && make.files.as_slice() == ["a", "-"].as_slice());
    let make = make_by(rt.alloc(), &["krl", "make", "-f", "k"])?;
    assert!(rt; make.version.is_none() && make.comment.is_none() && make.files.is_empty());
    assert!(rt; !make.quiet && !make.allow_empty && !make.update && !make.replace);
    assert!(rt; !make.dry_run);
    let make = make_by(rt.alloc(), &["krl", "make", "-nf", "k"])?;
    assert!(rt; make.dry_run && !make.quiet && !make.update && !make.replace);
    let make = make_by(rt.alloc(), &["krl", "make", "-uf", "k"])?;
    assert!(rt; make.update && !make.replace && !make.quiet);
    let make = make_by(rt.alloc(), &["krl", "make", "--replace", "-f", "./-", "-"])?;
    assert!(rt; make.replace && !make.update && make.list == "./-");
    for version in ["", "x", "-1", "18446744073709551616", "1 "] {
        let words = ["krl", "make", "-f", "k", "-z", version, "a"];
        assert!(rt; status_by(rt.alloc(), &words)? == 2, "{version}");
    }
    Ok(())
}

#[test]
fn durations(rt: HostRuntime) -> Result<(), Fail> {
    let rows: [(&str, u64); 6] = [
        ("1s", 1),
        ("90m", 5_400),
        ("24h", 86_400),
        ("7d", 604_800),
        ("007d", 604_800),
        ("9007199254740991s", 9_007_199_254_740_991),
    ];
    for (text, seconds) in rows {
        let words = ["krl", "check", "k", "--max-age", text];
        let check = check_by(rt.alloc(), &words)?;
        assert!(rt; check.max_age == Some(seconds), "{text}");
    }
    let refused: [&str; 14] = [
        "",
        "h",
        "24",
        "0h",
        "1w",
        "1 h",
        "+1h",
        "1.5h",
        "1hh",
        "1h\u{e9}",
        "9007199254740992s",
        "18446744073709551615s",
        "18446744073709551616s",
        "9223372036854775808m",
    ];
    for text in refused {
        let words = ["krl", "check", "k", "--max-age", text];
        assert!(rt; status_by(rt.alloc(), &words)? == 2, "{text}");
    }
    Ok(())
}

#[test]
fn comparisons(rt: HostRuntime) -> Result<(), Fail> {
    let diff = diff_by(rt.alloc(), &["krl", "diff", "a", "--json", "b"])?;
    assert!(rt; diff.old == "a" && diff.new == "b" && diff.json);
    let diff = diff_by(rt.alloc(), &["krl", "diff", "--", "-a", "b"])?;
    assert!(rt; diff.old == "-a" && diff.new == "b" && !diff.json && diff.names.is_empty());
    let words = ["krl", "diff", "--names", "t", "a", "--names", "u", "-"];
    let diff = diff_by(rt.alloc(), &words)?;
    assert!(rt; diff.old == "a" && diff.new == "-");
    assert!(rt; diff.names.as_slice() == ["t", "u"].as_slice());
    let check = check_by(rt.alloc(), &["krl", "check", "k", "--superset-of", "s"])?;
    assert!(rt; check.superset_of == Some("s") && check.newer_than.is_none());
    assert!(rt; check.sshd.is_none());
    let check = check_by(rt.alloc(), &["krl", "check", "k", "--sshd", "-"])?;
    assert!(rt; check.sshd == Some("-") && check.list == "k" && check.superset_of.is_none());
    Ok(())
}

// Words that are refused.
static REFUSED: [&[&str]; 96] = [
    &["krl", "audit", "-f-", "-"],
    &["krl", "audit", "-f-", "a", "-", "-"],
    &["krl", "audit", "-f-", "--files0-from", "-"],
    &["krl", "audit", "-f-", "--canary", "-", "a"],
    &["krl", "audit", "-fk", "--files0-from=-", "-"],
    &["krl", "audit", "-fk", "--canary=-", "-"],
    &["krl", "audit", "-fk", "--canary=-", "--canary=-", "a"],
    &["krl", "audit", "-f-", "-t-", "a"],
    &["krl", "audit", "-t-", "-t-", "a"],
    &["krl", "audit", "-t-", "-"],
    &["krl", "audit", "-fk", "-xx", "a"],
    &["krl", "audit", "--sshd"],
    &["krl", "audit", "--sshd=-", "--sshd=-"],
    &["krl", "audit", "--sshd=-", "--passwd=-"],
    &["krl", "audit", "--sshd=a", "--passwd=b", "--passwd=c"],
    &["krl", "audit", "-fk", "--passwd=b", "c"],
    &["krl", "audit", "-fk", "--command-output=b", "c"],
    &["krl", "logins"],
    &["krl", "logins", "a"],
    &["krl", "logins", "-f", "k"],
    &["krl", "logins", "-t", "a"],
    &["krl", "logins", "-fk", "-", "-"],
    &["krl", "logins", "-fk", "-", "a", "-"],
    &["krl", "logins", "-f-", "-"],
    &["krl", "logins", "-t-", "-"],
    &["krl", "logins", "-f-", "-t-", "a"],
    &["krl", "logins", "-t-", "-t-", "a"],
    &["krl", "logins", "-fk", "-fk", "a"],
    &["krl", "logins", "-fk", "-aa", "a"],
    &["krl", "logins", "-fk", "-qq", "a"],
    &["krl", "logins", "-fk", "--json", "--json", "a"],
    &["krl", "logins", "-fk", "-x", "a"],
    &["krl", "logins", "-fk", "--canary", "c", "a"],
    &["krl", "logins", "-fk", "--files0-from", "a"],
    &["krl", "check", "-", "--newer-than", "-"],
    &["krl", "check", "-", "--superset-of", "-"],
    &["krl", "check", "-", "--keep", "-"],
    &["krl", "check", "-", "--canary", "-"],
    &["krl", "check", "k", "--keep", "-", "--canary", "-"],
    &["krl", "check", "k", "--max-cas", "1", "--max-cas", "1"],
    &["krl", "check", "k", "--print-version", "--max-cas", "1"],
    &["krl", "show", "-", "a", "-"],
    &["krl", "show", "--no-name", "--no-name", "a"],
    &["krl", "diff", "-", "-"],
    &["krl", "show", "--names", "-", "-"],
    &["krl", "show", "--names", "-", "--names", "-", "a"],
    &["krl", "show", "a", "--names"],
    &["krl", "diff", "--names", "-", "-", "a"],
    &["krl", "check", "-", "--names", "-"],
    &["krl", "check", "k", "--sshd"],
    &["krl", "check", "-", "--sshd", "-"],
    &["krl", "check", "k", "--keep", "-", "--sshd", "-"],
    &["krl", "check", "k", "--sshd", "a", "--sshd", "a"],
    &["krl", "check", "k", "--print-version", "--sshd", "a"],
    &["krl", "check", "k", "--names", "-", "--superset-of", "-"],
    &["krl", "check", "k", "--print-version", "--names", "a"],
    &["krl", "make", "-f", "k", "-", "-"],
    &["krl", "make", "-f-", "a"],
    &["krl", "make", "-f", "k", "-u", "--replace", "a"],
    &["krl", "make", "-f", "k", "-uu", "a"],
    &["krl", "make", "-f", "k", "--replace", "--replace", "a"],
    &["krl", "diff"],
    &["krl", "diff", "a"],
    &["krl", "diff", "a", "b", "c"],
    &["krl", "diff", "a", "b", "--json", "--json"],
    &["krl", "check", "k", "--superset-of", "a", "--superset-of=b"],
    &["krl", "check", "k", "--print-version", "--superset-of", "a"],
    &["krl", "show"],
    &["krl", "show", "--json"],
    &["krl", "show", "a", "--json", "--json"],
    &["krl", "show", "a", "-f", "b"],
    &["krl"],
    &["krl", "-f", "k", "a"],
    &["krl", "other"],
    &["krl", "audit", "a"],
    &["krl", "audit", "-f", "k"],
    &["krl", "audit", "-fk", "a", "-Q"],
    &["krl", "audit", "-fk", "a", "--json=x"],
    &["krl", "check"],
    &["krl", "check", "k", "more"],
    &["krl", "check", "k", "--keep"],
    &["krl", "check", "k", "--print-version", "--canary", "c"],
    &["krl", "check", "k", "--print-version", "--keep", "c"],
    &["krl", "check", "k", "--print-version", "--newer-than", "c"],
    &["krl", "check", "k", "--print-version", "--max-age", "1h"],
    &["krl", "check", "k", "--print-version", "--allow-empty"],
    &["krl", "check", "k", "--print-version", "--json"],
    &["krl", "audit", "-f", "k", "-f", "l", "a"],
    &["krl", "audit", "-fk", "-fk", "a"],
    &[
        "krl",
        "audit",
        "-fk",
        "--files0-from",
        "a",
        "--files0-from=b",
    ],
    &["krl", "audit", "-fk", "-qq", "a"],
    &["krl", "audit", "-fk", "--all", "--all", "a"],
    &["krl", "check", "k", "--newer-than", "a", "--newer-than=b"],
    &["krl", "check", "k", "--max-age", "1h", "--max-age=2h"],
    &["krl", "check", "k", "--allow-empty", "--allow-empty"],
    &["krl", "check", "k", "--print-version", "--print-version"],
];

#[test]
fn refusals(rt: HostRuntime) -> Result<(), Fail> {
    for (i, words) in REFUSED.iter().enumerate() {
        assert!(rt; status_by(rt.alloc(), words)? == 2, "in row {i}");
    }
    Ok(())
}

#[test]
fn helps(rt: HostRuntime) -> Result<(), Fail> {
    let asked: [&[&str]; 11] = [
        &["krl", "logins", "-h"],
        &["krl", "diff", "-h"],
        &["krl", "show", "-h"],
        &["krl", "-h"],
        &["krl", "help"],
        &["krl", "help", "audit"],
        &["krl", "--version"],
        &["krl", "audit", "--help"],
        &["krl", "audit", "--version"],
        &["krl", "check", "-h"],
        &["krl", "check", "k", "-h"],
    ];
    for (i, words) in asked.iter().enumerate() {
        assert!(rt; status_by(rt.alloc(), words)? == 0, "in row {i}");
    }
    Ok(())
}

// Words that ask for the version, and the name before it.
const VERSIONS: [(&[&str], &str); 4] = [
    (&["krl", "--version"], "krl"),
    (&["other", "-V"], "krl"),
    (&["krl", "audit", "--version"], "krl-audit"),
    (&["krl", "make", "-f", "k", "-V"], "krl-make"),
];

#[test]
fn versions(rt: HostRuntime) -> Result<(), Fail> {
    for (words, name) in VERSIONS {
        let wanted = format!(in rt.alloc(); "{name} {VERSION}\n")?;
        match task_of(rt.alloc(), VERSION, words) {
            Err(CommandFault::Words { help, text }) => assert!(rt;
                help && text == wanted,
                "{text}"
            ),
            _ => return Err(Fail::from("the words ask for the version")),
        }
    }
    Ok(())
}

// Words that are refused, and the beginning of what is said.
const SAID: [(&[&str], &str); 16] = [
    (&["krl", "audit", "a"], "error: -f or -t is needed\n"),
    (&["krl", "logins", "a"], "error: -f or -t is needed\n"),
    (&["krl", "logins"], "error: -f or -t is needed\n"),
    (
        &["krl", "logins", "-t", "a"],
        "error: a file is needed\n\nUsage: krl logins [-f <krl>]",
    ),
    (
        &["krl", "logins", "-", "-f", "k", "-"],
        "error: standard input (-) can be read for one file only\n",
    ),
    (
        &["krl", "show", "-", "-"],
        "error: standard input (-) can be read for one file only\n",
    ),
    (
        &["krl", "make", "-f", "-", "-"],
        "error: standard input (-) can be read for one file only\n",
    ),
    (
        &["krl", "make", "-f", "-", "a"],
        "error: -f takes a file, and - is standard input\n",
    ),
    (
        &["krl", "make", "-f", "k", "-u", "--replace"],
        "error: -u does not go with --replace\n",
    ),
    (
        &["krl", "check", "k", "--max-cas", "many"],
        "error: --max-cas takes a number below 2^53\n",
    ),
    (
        &["krl", "audit", "-f", "k"],
        "error: a file, a directory, --files0-from or --sshd is needed",
    ),
    (
        &["krl", "check", "k", "--print-version", "--newer-than", "c"],
        "error: --print-version goes with no other option",
    ),
    (
        &["krl", "check", "k", "--max-age", "1w", "--print-version"],
        "error: --max-age takes a number and one of s, m, h and d",
    ),
    (
        &["krl", "audit", "-f", "k", "-f", "l", "a"],
        "error: the argument '-f <krl>' cannot be used multiple times",
    ),
    (
        &[
            "krl",
            "check",
            "k",
            "--newer-than",
            "a",
            "--newer-than",
            "a",
        ],
        "error: the argument '--newer-than <krl>' cannot be used multiple times",
    ),
    (
        &["krl", "check", "k", "--max-age", "1h", "--max-age", "2h"],
        "error: the argument '--max-age <duration>' cannot be used multiple times",
    ),
];

#[test]
fn what_is_said(rt: HostRuntime) -> Result<(), Fail> {
    for (words, wanted) in SAID {
        match task_of(rt.alloc(), VERSION, words) {
            Err(CommandFault::Words { help, text }) => {
                assert!(rt; !help && text.as_str().starts_with(wanted), "{wanted}");
            }
            _ => return Err(Fail::from("the words are refused")),
        }
    }
    Ok(())
}

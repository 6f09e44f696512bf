//! Lists that come through pipes: each gives its bytes once, and is empty afterwards. The bytes
//! that were read are known, so a run over the pipes is one over exactly these bytes.

ghost use Rattle.std.specs.Prelude.{◌≡◌};

use any_list::Lists;
use byte_streams::ToWrite;
use list_text::Form;
use run_faults::Cause;
use show_run::{Comparison, diff_run, show_run};
use ssh_wire::Bytes;
use std::alloc::Global;
use std::process::Abort;
use test_fixtures::{GITHUB_LINE, Taker};

// A pipe that was read: its name and the bytes.
#[derive(Drop)]
struct Read {
    name: Bytes,
    bytes: Bytes,
}

// Pipes, through which the same plain list comes, and what was read of them.
#[derive(Drop)]
struct Pipes<'a, R> {
    rt: &'a R,
    readings: Vec<Read>,
}

impl<'a, R: Abort> Pipes<'a, R> {
    // The bytes that a pipe gives now.
    fn left(&self, name: &str) -> &'static [u8] {
        for read in &self.readings {
            if read.name.as_slice() == name.as_bytes() {
                return &[];
            }
        }
        GITHUB_LINE
    }

    // Bytes that are copied.
    fn copied(&self, alloc: Global, bytes: &[u8]) -> Bytes
        ensures { result ≡ bytes.now }
    {
        Bytes::from_vec(Vec::from_slice(alloc, bytes).expect(self.rt, "there is memory"))
    }
}

impl<'a, R: Abort> Lists for Pipes<'a, R> {
    ghost use Rattle.std.specs.Prelude.{Ok, Some, map};
    ghost use Rattle.any_list.specs.Told.{ListRead};

    ghost told = { λ pipes. Some
        (map (λ read. ListRead read.name (Ok read.bytes)) pipes.readings.items) };

    fn read(&mut self, alloc: Global, name: &str) -> Result<Bytes, Cause> {
        let bytes = self.left(name);
        let read = Read {
            name: self.copied(alloc, name.as_bytes()),
            bytes: self.copied(alloc, bytes),
        };
        self.readings.push(read).expect(self.rt, "there is memory");
        Ok(self.copied(alloc, bytes))
    }
}

// Whether these pipes were read, once each and in this order.
fn are_read<R>(pipes: &Pipes<'_, R>, names: &[&str]) -> bool {
    for (i, read) in pipes.readings.iter().enumerate() {
        match names.get(i) {
            Some(name) if read.name.as_slice() == name.as_bytes() => {}
            _ => return false,
        }
    }
    pipes.readings.len() == names.len()
}

#[test]
fn each_pipe_is_read_once(rt: HostRuntime) {
    let mut pipes = Pipes {
        rt: &rt,
        readings: Vec::new(rt.alloc()),
    };
    let mut taker = Taker::whole(rt.alloc());
    let comparison = Comparison {
        old: "old",
        new: "new",
        json: false,
        names: None,
    };
    let done = diff_run(
        rt.alloc(),
        &mut pipes,
        comparison,
        &mut ToWrite::new(&mut taker),
    );
    assert!(rt; done.status == 0 && are_read(&pipes, &["old", "new"]));
    let shown = show_run(
        rt.alloc(),
        &mut pipes,
        &["b", "a"],
        Form::Json(None),
        &mut ToWrite::new(&mut taker),
    );
    assert!(rt; shown.status == 0 && are_read(&pipes, &["old", "new", "b", "a"]));
}

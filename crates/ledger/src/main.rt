//! The program: the words of its command line, the three streams of its process, and the store in its directory.
#![tactic(auto)]

ghost use Rattle.std.specs.Prelude.{◌≡◌, ◌<◌};

use outside::{Access, DirVolume, OpenGate, Sink, Source, StdSink, StdSource, Steps, Volume};
use replay::{end_without_memory, run_program};
use std::marker::Brand;
use std::process::ExitCode;
use std::rt::Env;
use std::sync::Wait;
use std::sync::ledger::{Blank, Ledger};
use std::thread::Threads;
use std::{env, io};

/// The words after the program's name.
fn words<R: Env + AllocGlobal>(rt: &R) -> io::Result<Vec<String>> {
    let words = env::args(rt)?.skip(1).collect(rt.alloc())?;
    Ok(words)
}

/// How the command of the words uses the store: `init` and `run` write to it.
fn access_of(words: &io::Result<Vec<String>>) -> Access {
    let Ok(words) = words else {
        return Access::Read;
    };
    match words.as_slice().first() {
        Some(first) if first.as_str() == "init" || first.as_str() == "run" => Access::Write,
        _ => Access::Read,
    }
}

/// Runs the command of the words over these streams and this volume. The steps of merges are counted apart.
fn run<
    R: Threads + Wait + Sync + Env + AllocGlobal,
    I: Source,
    O: Sink,
    E: Sink,
    V: Volume,
    L: Ledger,
>(
    rt: &R,
    words: io::Result<Vec<String>>,
    input: &mut I,
    out: &mut O,
    err: &mut E,
    vol: &mut V,
    blank: Blank,
) -> u8
    requires name { blank.name ≡ L.name }
    requires parts { blank.parts ≡ L.parts }
    requires some { 0 < L.parts }
{
    let alloc = rt.alloc();
    let mut steps: Steps<L> = Steps::new(blank);
    match words {
        Ok(words) => {
            let words = words.as_slice();
            run_program(
                rt, alloc, words, input, out, err, vol, &OpenGate, &mut steps,
            )
        }
        Err(fault) if fault.kind() == io::ErrorKind::OutOfMemory => end_without_memory(err),
        // A word that isn't UTF-8 makes the words no command.
        Err(_) => run_program(rt, alloc, &[], input, out, err, vol, &OpenGate, &mut steps),
    }
}

/// The exit status of the command of the words.
fn status_of<R: Threads + Wait + Sync + Env + AllocGlobal, I: Source, O: Sink, E: Sink, V: Volume>(
    rt: &R,
    words: io::Result<Vec<String>>,
    input: &mut I,
    out: &mut O,
    err: &mut E,
    vol: &mut V,
) -> u8 {
    run::<R, I, O, E, V, Brand>(rt, words, input, out, err, vol, Blank::new(1))
}

/// The streams are those of the process, and the volume is the directory `ledger-store`.
fn main(rt: HostRuntime) -> ExitCode {
    let mut input = StdSource::new(rt.stdin());
    let mut out = StdSink::new(rt.stdout());
    let mut err = StdSink::new(rt.stderr());
    let words = words(&rt);
    let mut vol = DirVolume::new(&rt, access_of(&words));
    ExitCode::from(status_of(&rt, words, &mut input, &mut out, &mut err, &mut vol))
}

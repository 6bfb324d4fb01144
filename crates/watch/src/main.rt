//! The program `watch`: readers of an account beside a ledger that closes, over the three streams of its process.
#![tactic(auto)]

ghost use Rattle.std.specs.Prelude.{◌≡◌, ◌<◌};

use outside::{OpenGate, Sink, Source, StdSink, StdSource, Steps};
use replay::end_without_memory;
use std::marker::Brand;
use std::process::ExitCode;
use std::rt::Env;
use std::sync::Wait;
use std::sync::ledger::{Blank, Ledger};
use std::thread::Threads;
use std::{env, io};
use watch_run::run_watch;

/// The words after the program's name.
fn words<R: Env + AllocGlobal>(rt: &R) -> io::Result<Vec<String>> {
    let words = env::args(rt)?.skip(1).collect(rt.alloc())?;
    Ok(words)
}

/// Runs what the words ask for over these streams. The steps of merges are counted apart.
fn run<R: Threads + Wait + Sync + Env + AllocGlobal, I: Source, O: Sink, E: Sink, L: Ledger>(
    rt: &R,
    words: io::Result<Vec<String>>,
    input: &mut I,
    out: &mut O,
    err: &mut E,
    blank: Blank,
) -> u8
    requires name { blank.name ≡ L.name }
    requires parts { blank.parts ≡ L.parts }
    requires some { 0 < L.parts }
{
    let alloc = rt.alloc();
    let mut steps: Steps<L> = Steps::new(blank);
    match words {
        Ok(words) => {
            let words = words.as_slice();
            run_watch(rt, alloc, words, input, out, err, &OpenGate, &mut steps)
        }
        Err(fault) if fault.kind() == io::ErrorKind::OutOfMemory => end_without_memory(err),
        // A word that isn't UTF-8 asks for nothing.
        Err(_) => run_watch(rt, alloc, &[], input, out, err, &OpenGate, &mut steps),
    }
}

/// The exit status of what the words ask for.
fn status_of<R: Threads + Wait + Sync + Env + AllocGlobal, I: Source, O: Sink, E: Sink>(
    rt: &R,
    words: io::Result<Vec<String>>,
    input: &mut I,
    out: &mut O,
    err: &mut E,
) -> u8 {
    run::<R, I, O, E, Brand>(rt, words, input, out, err, Blank::new(1))
}

/// The streams are those of the process.
fn main(rt: HostRuntime) -> ExitCode {
    let mut input = StdSource::new(rt.stdin());
    let mut out = StdSink::new(rt.stdout());
    let mut err = StdSink::new(rt.stderr());
    let words = words(&rt);
    ExitCode::from(status_of(&rt, words, &mut input, &mut out, &mut err))
}

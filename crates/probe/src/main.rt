//! Runs cases: small ledgers to which an operation or a change of sponsorship is applied, maps of entries, levels of
//! buckets, streams, lists of changes, and single calls. Prints a line a step, and `BAD` after its name where it
//! can't be taken.
//!
//! The program's one argument is the file of the cases. Blank lines part them. The first line of a case says what it is
//! of: `ledgers`, `maps` with the files of levels, `levels`, `streams`, `calls`, `changes`, `pages` with the file of a
//! bucket, or `warming` with a start image. Each further line is the name of a step and its arguments, as XDR in
//! hexadecimal. The scripts in `tests/probe` at the top write the cases, and what is expected of them.
#![tactic(auto)]

mod answers;
mod board;
mod calls;
mod case;
mod change_lists;
mod levels;
mod machine;
mod maps;
mod operations;
mod output;
mod pages;
mod ready;
mod sheet;
mod sponsoring;
mod streams;

use board::run_levels;
use calls::Calls;
use case::Ledgers;
use change_lists::run_changes;
use machine::take_all;
use maps::run_maps;
use output::Output;
use pages::{run_pages, run_warming};
use std::alloc::Global;
use std::{env, fs, io};
use streams::Streams;

/// Runs a case, if it is one.
fn run(alloc: Global, head: &str, lines: &str, output: &mut Output) -> Option<()> {
    let (word, digits) = head.split_once(' ').unwrap_or((head, ""));
    match word.as_bytes() {
        b"ledgers" => Some(take_all(alloc, &mut Ledgers, lines, output)),
        b"maps" => run_maps(alloc, digits, lines, output),
        b"levels" => run_levels(alloc, lines, output),
        b"streams" => Some(take_all(alloc, &mut Streams, lines, output)),
        b"calls" => Some(take_all(alloc, &mut Calls, lines, output)),
        b"changes" => run_changes(alloc, lines, output),
        b"pages" => run_pages(alloc, digits, lines, output),
        b"warming" => run_warming(alloc, digits, lines, output),
        _ => None,
    }
}

/// Runs the cases of a text.
fn run_all(alloc: Global, text: &str, output: &mut Output) {
    for case in text.split("\n\n") {
        let (head, lines) = case.split_once('\n').unwrap_or((case, ""));
        if run(alloc, head, lines, output).is_none() {
            output.text("case:");
            output.end(false);
        }
    }
}

fn main(rt: HostRuntime) -> io::Result<()> {
    let mut output = Output::new(rt.alloc());
    if let Some(path) = env::args(&rt)?.nth(1) {
        let text = fs::read_to_string(&rt, path.as_str())?;
        run_all(rt.alloc(), text.as_str(), &mut output);
    }
    output.print(&rt)
}

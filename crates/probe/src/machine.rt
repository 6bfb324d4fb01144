//! What takes the steps of a case, a line each.

use crate::output::Output;
use std::alloc::Global;
use xdr_core::Cursor;

/// What takes steps.
pub trait Machine {
    /// Takes the step of a name, whose arguments are XDR, and writes its answer. Answers none where there is no such
    /// step, its arguments are out of range, or an allocation fails.
    fn step(
        &mut self,
        alloc: Global,
        name: &str,
        input: &mut Cursor<'_>,
        output: &mut Output,
    ) -> Option<()>;
}

/// Takes the step of a line, its name and its arguments in hexadecimal, and writes its answer.
fn take<M: Machine>(alloc: Global, machine: &mut M, line: &str, output: &mut Output) {
    let (name, digits) = line.rsplit_once(' ').unwrap_or((line, ""));
    output.text(name);
    output.text(":");
    if let Ok(bytes) = hex::decode(alloc, digits) {
        let mut input = Cursor::new(bytes.as_slice());
        let done = machine.step(alloc, name, &mut input, output);
        output.end(done.is_some() && input.end().is_ok());
    } else {
        output.end(false);
    }
}

/// Takes the step of each line.
pub fn take_all<M: Machine>(alloc: Global, machine: &mut M, lines: &str, output: &mut Output) {
    for line in lines.lines() {
        take(alloc, machine, line, output);
    }
}

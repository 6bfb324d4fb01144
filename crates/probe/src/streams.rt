//! Cases of streams.
//!
//!     read TEXT LIMIT MOST FAILING     from a source in memory that gives at most so many bytes a read, and of which
//!                                      one read fails, from 1, or none where that is 0; from a slice; and from a slice
//!                                      and a vector as readers of the standard library: what each gives, and after
//!                                      the first its count of faults
//!     write TEXT LIMIT MOST FAILING    to a sink in memory, then nothing; to one that takes all; twice to a vector,
//!                                      and to two bytes, as writers of the standard library: whether each takes all,
//!                                      and what it has then

use crate::machine::Machine;
use crate::output::Output;
use outside::{
    MemSink, MemSource, ReadAllFault, Sink, Source, StdSink, StdSource, SureSink, SureSource,
    read_all, write_all,
};
use std::alloc::Global;
use std::io;
use xdr_core::Cursor;

/// Streams, which have no state between their cases.
#[derive(Drop)]
pub struct Streams;

/// What a line says.
#[derive(Clone, Copy)]
struct Terms<'a> {
    text: &'a [u8],
    limit: u32,
    most: u32,
    failing: u32,
}

fn read_terms<'a>(input: &mut Cursor<'a>) -> Option<Terms<'a>> {
    Some(Terms {
        text: input.var(u32::MAX).ok()?,
        limit: input.u32().ok()?,
        most: input.u32().ok()?,
        failing: input.u32().ok()?,
    })
}

/// Reads a source, and writes what it gave or why it wasn't read entirely.
fn read_to<S: Source>(alloc: Global, source: &mut S, limit: u32, output: &mut Output) {
    match read_all(alloc, source, limit as usize) {
        Ok(bytes) => output.bytes(bytes.as_slice()),
        Err(ReadAllFault::Failed) => output.word("Failed"),
        Err(ReadAllFault::TooLong) => output.word("TooLong"),
        Err(_) => output.word("BAD"),
    }
}

/// Writes a text to a sink, and writes whether all of it was taken.
fn write_to<K: Sink>(sink: &mut K, text: &[u8], output: &mut Output) {
    match write_all(sink, text) {
        Ok(()) => output.word("done"),
        Err(_) => output.word("Failed"),
    }
}

fn read_memory(alloc: Global, terms: Terms<'_>, output: &mut Output) -> Option<()> {
    if terms.most == 0 {
        return None;
    }
    let plan = Vec::from_slice(alloc, &[terms.failing as u64]).ok()?;
    let bytes = terms.text.to_vec(alloc).ok()?;
    let mut source = MemSource::new(bytes, terms.most as usize, plan);
    read_to(alloc, &mut source, terms.limit, output);
    output.number(source.faults() as i128);
    Some(())
}

fn read_others(alloc: Global, terms: Terms<'_>, output: &mut Output) -> Option<()> {
    let bytes = terms.text.to_vec(alloc).ok()?;
    read_to(alloc, &mut SureSource::new(terms.text), terms.limit, output);
    read_to(alloc, &mut StdSource::new(terms.text), terms.limit, output);
    read_to(
        alloc,
        &mut StdSource::new(io::Cursor::new(bytes)),
        terms.limit,
        output,
    );
    Some(())
}

fn write_memory(alloc: Global, terms: Terms<'_>, output: &mut Output) -> Option<()> {
    let plan = Vec::from_slice(alloc, &[terms.failing as u64]).ok()?;
    let mut sink = MemSink::new(alloc, terms.most as usize, plan);
    write_to(&mut sink, terms.text, output);
    write_to(&mut sink, b"", output);
    output.number(sink.faults() as i128);
    output.bytes(sink.bytes());
    Some(())
}

fn write_others(alloc: Global, terms: Terms<'_>, output: &mut Output) {
    write_to(&mut SureSink, terms.text, output);
    let mut vector = StdSink::new(Vec::new(alloc));
    write_to(&mut vector, terms.text, output);
    write_to(&mut vector, terms.text, output);
    output.bytes(vector.into_inner().as_slice());
    let mut room = [0; 2];
    write_to(&mut StdSink::new(room.as_mut_slice()), terms.text, output);
    output.bytes(&room);
}

impl Machine for Streams {
    fn step(
        &mut self,
        alloc: Global,
        name: &str,
        input: &mut Cursor<'_>,
        output: &mut Output,
    ) -> Option<()> {
        let terms = read_terms(input)?;
        if name == "read" {
            read_memory(alloc, terms, output)?;
            return read_others(alloc, terms, output);
        }
        write_memory(alloc, terms, output)?;
        write_others(alloc, terms, output);
        Some(())
    }
}

//! What the scripts in bench/ hold to a bound and the program `ledger` can't show apart: books of offers, a store in a
//! directory, what `verify` has to compute, the hops of paths, and closing beside readers.
//!
//!     speed book COUNT              makes a map of so many offers, a thousand of them changed; walks their book for a
//!                                   million answers
//!     speed book-base COUNT         makes the map alone
//!     speed head COUNT              makes a map whose so many best offers are erased; asks for its best a million
//!                                   times
//!     speed head-base COUNT         makes the map alone
//!     speed index COUNT PAIRS       makes an index of so many offers, and 1,000 times the one after a batch of 100
//!     speed index-base COUNT PAIRS  makes the index alone
//!
//! These print how many offers were answered, and the sum of their numbers.
//!
//!     speed store-make BYTES 0      makes a store of an image of so many bytes, in the directory `ledger-store`
//!     speed store-append COUNT SIZE appends so many records to it, each of so many bytes
//!     speed store-roll BYTES 0      goes on to an image of so many bytes
//!     speed store-open BYTES 0      makes the image and opens the store alone
//!     speed store-hash BYTES TIMES  makes the encoding of an image of so many bytes, and hashes it so many times
//!
//! These print how many stores were made, how many records were appended, or how many there were, and the sum of the
//! hashes' first bytes.
//!
//!     speed history FILE            decodes the files of a history, and hashes each envelope twice and the rest once
//!
//! This prints the sum of the hashes' first bytes.
//!
//!     speed paths IMAGE QUERY       opens the ledger of an image, and makes the hops of each path of a query
//!     speed paths-base IMAGE QUERY  opens the ledger alone
//!
//! These print how many paths were tried, how many of them had a cost, and the least cost.
//!
//!     speed readers IMAGE RECORDS   closes the ledgers of records after an image, publishing each, while three readers
//!                                   read an account in threads of their own
//!     speed readers-base IMAGE RECORDS  closes them alone
//!     speed reads IMAGE COUNT       has a reader read the account so often
//!     speed reads-base IMAGE COUNT  looks it up in the ledger so often
//!
//! These print how many ledgers were closed and how many reads were answered.
#![tactic(auto)]

mod histories;
mod order_books;
mod paths;
mod readers;
mod stores;

use histories::pass_history;
use order_books::{Seen, pass_book, pass_head, pass_index};
use outside::LockFiles;
use paths::{Served, pass_paths};
use readers::{Done, pass_closes, pass_reads};
use std::fs::Files;
use std::sync::Wait;
use std::thread::Threads;
use std::{env, fs, io};
use stores::pass_store;

/// Runs a command on books of so many offers, where there is such a command.
fn run_books<R: AllocGlobal>(rt: &R, command: &str, count: &str) -> Option<Seen> {
    let count = count.parse().ok()?;
    match command.as_bytes() {
        b"book" => pass_book(rt.alloc(), count, true).ok(),
        b"book-base" => pass_book(rt.alloc(), count, false).ok(),
        b"head" => pass_head(rt.alloc(), count, true).ok(),
        b"head-base" => pass_head(rt.alloc(), count, false).ok(),
        _ => None,
    }
}

/// Runs a command on indexes of so many offers in so many pairs, where there is such a command.
fn run_index<R: AllocGlobal>(rt: &R, command: &str, count: &str, pairs: &str) -> Option<Seen> {
    let count = count.parse().ok()?;
    let pairs = pairs.parse().ok()?;
    match command.as_bytes() {
        b"index" => pass_index(rt.alloc(), count, pairs, true).ok(),
        b"index-base" => pass_index(rt.alloc(), count, pairs, false).ok(),
        _ => None,
    }
}

/// Prints what was seen.
fn report_seen<R: Print>(rt: &R, command: &str, seen: Option<Seen>) -> io::Result<()> {
    let Some(seen) = seen else {
        return println!(rt; "{command}: nothing was done");
    };
    let offers = seen.offers;
    let ids = seen.ids;
    println!(rt; "{command}: {offers} offers, ids {ids}")
}

/// Runs a command on the store in the working directory, and prints what it answers.
fn report_store<R: LockFiles + Print + AllocGlobal>(
    rt: &R,
    command: &str,
    count: &str,
    size: &str,
) -> io::Result<()> {
    let (Ok(count), Ok(size)) = (count.parse(), size.parse()) else {
        return println!(rt; "{command}: nothing was done");
    };
    match pass_store(rt.alloc(), rt, command, count, size) {
        Some(done) => println!(rt; "{command}: {done}"),
        None => println!(rt; "{command}: nothing was done"),
    }
}

/// Passes the history in a file, and prints what it answers.
fn report_history<R: Files + Print + AllocGlobal>(rt: &R, path: &str) -> io::Result<()> {
    let text = fs::read(rt, path)?;
    match pass_history(rt.alloc(), text.as_slice()) {
        Some(sum) => println!(rt; "history: sum {sum}"),
        None => println!(rt; "history: nothing was done"),
    }
}

/// Tries the paths of the query in a file over the ledger of the image in another one, and prints what was seen.
fn report_paths<R: Files + Print + AllocGlobal>(
    rt: &R,
    command: &str,
    image: &str,
    query: &str,
) -> io::Result<()> {
    let image = fs::read(rt, image)?;
    let query = fs::read(rt, query)?;
    let calls = command == "paths";
    let Some(seen) = pass_paths(rt.alloc(), image.as_slice(), query.as_slice(), calls) else {
        return println!(rt; "{command}: nothing was done");
    };
    let Served {
        tried,
        served,
        least,
    } = seen;
    println!(rt; "{command}: {tried} paths, {served} served, least {least}")
}

/// Prints what was done.
fn report_done<R: Print>(rt: &R, command: &str, done: Option<Done>) -> io::Result<()> {
    let Some(Done { ledgers, reads }) = done else {
        return println!(rt; "{command}: nothing was done");
    };
    println!(rt; "{command}: {ledgers} ledgers, {reads} reads")
}

/// Closes the ledgers of the records in a file after the image in another one, and prints what was done.
fn report_closes<R: Threads + Wait + Sync + Files + Print + AllocGlobal>(
    rt: &R,
    command: &str,
    image: &str,
    records: &str,
) -> io::Result<()> {
    let image = fs::read(rt, image)?;
    let records = fs::read(rt, records)?;
    let beside = command == "readers";
    let done = pass_closes(rt, rt.alloc(), image.as_slice(), records.as_slice(), beside);
    report_done(rt, command, done)
}

/// Reads an account of the ledger of the image in a file, and prints what was done.
fn report_reads<R: Wait + Files + Print + AllocGlobal>(
    rt: &R,
    command: &str,
    image: &str,
    count: &str,
) -> io::Result<()> {
    let image = fs::read(rt, image)?;
    let by_reader = command == "reads";
    let done = match count.parse() {
        Ok(count) => pass_reads(rt, rt.alloc(), image.as_slice(), count, by_reader),
        Err(_) => None,
    };
    report_done(rt, command, done)
}

/// Runs a command on two words.
fn report_two<R: Threads + Wait + Sync + LockFiles + Print + AllocGlobal>(
    rt: &R,
    command: &str,
    first: &str,
    second: &str,
) -> io::Result<()> {
    match command.as_bytes() {
        b"index" | b"index-base" => report_seen(rt, command, run_index(rt, command, first, second)),
        b"paths" | b"paths-base" => report_paths(rt, command, first, second),
        b"readers" | b"readers-base" => report_closes(rt, command, first, second),
        b"reads" | b"reads-base" => report_reads(rt, command, first, second),
        _ => report_store(rt, command, first, second),
    }
}

fn main(rt: HostRuntime) -> io::Result<()> {
    let mut words = env::args(&rt)?;
    let _program = words.next();
    let (Some(command), Some(word)) = (words.next(), words.next()) else {
        return println!(rt; "no command");
    };
    match words.next() {
        Some(other) => report_two(&rt, command.as_str(), word.as_str(), other.as_str()),
        None if command.as_str() == "history" => report_history(&rt, word.as_str()),
        None => report_seen(
            &rt,
            command.as_str(),
            run_books(&rt, command.as_str(), word.as_str()),
        ),
    }
}

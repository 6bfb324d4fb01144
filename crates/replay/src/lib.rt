//! The program: its commands over sources and sinks of bytes, a volume, and worker threads.
#![tactic(auto)]

mod again;
mod beside;
mod catchup;
mod closer;
mod closes;
mod crew;
mod files;
mod init;
mod keeper;
pub mod laws;
mod nowhere;
mod path;
mod run;
mod sample;
mod show;
mod starting;
mod stored;
mod stored_run;
mod verify;
mod warming;

pub use files::{do_changes, do_history};
pub use path::do_path;
pub use run::{
    do_catchup, do_init, do_run_alone, do_run_with, do_sample, do_show, end_without_memory,
    run_program,
};
pub use starting::{Started, start};
pub use verify::do_verify;
pub use worker_merges::{adopt, post_due};

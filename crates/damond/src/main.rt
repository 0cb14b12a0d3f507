//! `damond`: carries out a live script that comes on standard input, in threads, and writes the journal of
//! its run to standard output.
#![tactic(auto)]

use damon_live::{NoPace, live_main};
use damon_types::{StdSink, StdSource};
use run_status::{Status, command_words, tell};
use std::env::Env;
use std::io;
use std::process::ExitCode;
use std::sync::Wait;
use std::thread::Threads;

const USAGE: &str = "usage: damond run";

fn main(rt: HostRuntime) -> ExitCode {
    tell(&rt, USAGE, run(&rt))
}

// Hands the words, standard input and standard output to the top call.
fn run<R: Env + AllocGlobal + Input + Print + Threads + Wait + Sync>(rt: &R) -> Status {
    let words = match command_words(rt) {
        Ok(words) => words,
        Err(status) => return status,
    };
    let mut source = StdSource::new(rt.reader());
    let mut sink = StdSink::new(io::writer(rt));
    live_main(rt, rt.alloc(), &words, &mut source, &mut sink, &NoPace).status
}

//! `damon`: runs a script that comes on standard input, or a generated one, and writes its report to
//! standard output; or checks the text of a journal, or writes its heat tables.
#![tactic(auto)]

use damon_app::replay_main;
use damon_types::{StdSink, StdSource};
use run_status::{Status, command_words, tell};
use std::env::Env;
use std::io;
use std::process::ExitCode;

const USAGE: &str =
    "usage: damon replay, json, verify, gen N, tune GOALS, heat N, admin or reclaim";

fn main(rt: HostRuntime) -> ExitCode {
    tell(&rt, USAGE, run(&rt))
}

// Hands the words, standard input and standard output to the top call.
fn run<R: Env + AllocGlobal + Input + Print>(rt: &R) -> Status {
    let words = match command_words(rt) {
        Ok(words) => words,
        Err(status) => return status,
    };
    let mut source = StdSource::new(rt.reader());
    let mut sink = StdSink::new(io::writer(rt));
    replay_main(rt.alloc(), &words, &mut source, &mut sink)
}

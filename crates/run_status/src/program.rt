// What a program does before and after its run: its words, and its status told.
ghost use Rattle.std.specs.Prelude.{◌≡◌, ◌⊎◌, IfErr};
ghost use Rattle.std.specs.Process.{exit_status};
ghost use Rattle.run_status.specs.Status.{number_of};
ghost use Rattle.run_status.specs.declared.status.Status.TheVariants.{Memory, Usage};

use crate::status::Status;
use std::env::Env;
use std::process::ExitCode;
use std::{env, io};

/// The words after the program's name.
pub fn command_words<R: Env + AllocGlobal>(rt: &R) -> Result<Vec<String>, Status>
    ensures { IfErr result (λ status. (status ≡ Memory) ⊎ (status ≡ Usage)) }
{
    match env::args(rt) {
        Ok(args) => Ok(args.skip(1).collect::<Vec<String>>(rt.alloc())?),
        Err(e) if e.kind() == io::ErrorKind::OutOfMemory => Err(Status::Memory),
        Err(_) => Err(Status::Usage),
    }
}

/// Tells on standard error how a run ended, if it is to be told, and returns what the process ends with.
pub fn tell<R: Eprint>(rt: &R, usage: &str, status: Status) -> ExitCode
    ensures { exit_status result ≡ number_of status }
{
    // Where standard error is closed there is nobody to tell.
    let _ = match status {
        Status::Ok => Ok(()),
        Status::Usage => rt.eprintln(usage),
        _ => rt.eprintln(status),
    };
    ExitCode::from(status.number())
}

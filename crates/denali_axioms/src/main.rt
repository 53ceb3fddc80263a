//! The program: the words of its command line and standard output, and the top call over them.
#![tactic(auto)]

use axiom_texts::run;
use items::NoMemory;
use outside_io::StdSink;
use reports::Status;
use std::env::Args;
use std::process::ExitCode;
use std::{env, io};

/// The exit status where the words can't be had, for another cause than memory.
const NO_WORDS: u8 = 9;

fn main(rt: HostRuntime) -> ExitCode {
    let code = match env::args(&rt) {
        Ok(args) => run_with(&rt, args).unwrap_or(Status::Memory).code(),
        Err(error) if error.kind() == io::ErrorKind::OutOfMemory => Status::Memory.code(),
        Err(_) => NO_WORDS,
    };
    ExitCode::from(code)
}

fn run_with(rt: &HostRuntime, args: Args) -> Result<Status, NoMemory> {
    let alloc = rt.alloc();
    let owned: Vec<String> = args.skip(1).collect(alloc)?;
    let mut words = Vec::new(alloc);
    for word in &owned {
        words.push(word.as_str())?;
    }
    let mut sink = StdSink::new(rt.stdout());
    Ok(run(alloc, &words, &mut sink))
}

//! The program `ras`: an image is run under a script of faults, by itself or beside the flat
//! machine, and its console, its error records, reports and a verdict are written; or a debugger's
//! session over the run is; or records are printed.
//!
//! `main` takes the words of the command line and makes the host. All else is `ras_main`.
#![tactic(auto)]

#[cfg(test)]
mod command_tests;
mod compare;
mod debugging;
mod demo;
#[cfg(test)]
mod file_tests;
mod files;
#[cfg(test)]
mod guest_tests;
#[cfg(test)]
mod helpers;
mod inputs;
mod machine;
mod printing;
#[cfg(test)]
mod record_tests;
mod refusals;
mod settings;
mod status;
#[cfg(test)]
mod tests;
mod text;
mod top;
mod writes;

use crate::status::Exit;
use crate::top::ras_main;
use ras_host::RealHost;
use std::env;
use std::io::ErrorKind;
use std::process::ExitCode;

// The exit of a program that ends before its words are known.
fn ended(exit: Exit) -> ExitCode {
    ExitCode::from(exit.status().code)
}

fn main(rt: HostRuntime) -> ExitCode {
    let alloc = rt.alloc();
    let args = match env::args(&rt) {
        Ok(args) => args,
        Err(error) if error.kind() == ErrorKind::OutOfMemory => return ended(Exit::NoMemory),
        Err(_) => return ended(Exit::HostFailed),
    };
    let words: Vec<String> = match args.skip(1).collect(alloc) {
        Ok(words) => words,
        Err(_) => return ended(Exit::NoMemory),
    };
    let mut host = RealHost::make(rt);
    let status = ras_main(alloc, words.as_slice(), &mut host);
    ExitCode::from(status.code)
}

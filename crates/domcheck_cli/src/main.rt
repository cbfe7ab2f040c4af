//! The program `domcheck`: hands its words, the current folder, standard output, the assistants and
//! a counting observer to the top call, and ends with the number of the status. Promises nothing
//! beyond the contract of `domcheck`, and writes nothing to standard error. Stands on
//! domcheck_core, step_filler, run_trace and outside_io.
#![tactic(auto)]

use dom_terms::OutOfMemory;
use domcheck_core::{Filler, Status, domcheck};
use outside_io::{Folder, Screen};
use run_trace::{Observer, Tally};
use std::env::{Env, FillError};
use std::process::ExitCode;
use std::{env, io};
use step_filler::{Conj, Spot, Tidy};

// What the system tells the program, with its arguments counted from the first word after the
// program's name, so that a name that is no UTF-8 text is never read.
#[derive(Drop)]
struct AfterName<R> {
    host: R,
}

impl<R: Env> Env for AfterName<R> {
    fn arg(&self, i: usize, buf: &mut [u8]) -> Result<usize, FillError> {
        self.host.arg(i.saturating_add(1), buf)
    }

    fn var(&self, name: &str, buf: &mut [u8]) -> Result<usize, FillError> {
        self.host.var(name, buf)
    }

    fn var_at(&self, i: usize, buf: &mut [u8]) -> Result<usize, FillError> {
        self.host.var_at(i, buf)
    }
}

// The words after the program's name. Words that are no UTF-8 text have no reading, and so they
// are handed on as no words at all.
fn words_of(rt: &HostRuntime) -> Result<Vec<String>, OutOfMemory> {
    let mut words = Vec::new(rt.alloc());
    match env::args(&(AfterName { host: rt }, rt.alloc())) {
        Ok(all) => {
            for word in all {
                words.push(word)?;
            }
            Ok(words)
        }
        Err(error) if error.kind() == io::ErrorKind::OutOfMemory => Err(OutOfMemory),
        Err(_) => Ok(words),
    }
}

// How the call ends. Where there is no memory for the words, the fillers or the observer nothing is
// written.
fn end_of(rt: &HostRuntime) -> Result<Status, OutOfMemory> {
    let words = words_of(rt)?;
    let mut fillers: Vec<Box<dyn Filler>> = Vec::new(rt.alloc());
    fillers.push(Box::new(rt.alloc(), Tidy::new())?)?;
    fillers.push(Box::new(rt.alloc(), Spot::new())?)?;
    fillers.push(Box::new(rt.alloc(), Conj::new())?)?;
    let mut observers: Vec<Box<dyn Observer>> = Vec::new(rt.alloc());
    observers.push(Box::new(rt.alloc(), Tally::new())?)?;
    let mut folder = Folder::new(rt);
    let mut screen = Screen::new(rt);
    let status = domcheck(
        rt.alloc(),
        &words,
        &mut folder,
        &mut screen,
        fillers,
        &mut observers,
    );
    drop(observers);
    Ok(status)
}

fn main(rt: HostRuntime) -> ExitCode {
    let status = match end_of(&rt) {
        Ok(status) => status,
        Err(OutOfMemory) => Status::OutOfMemory,
    };
    ExitCode::from(status.number())
}

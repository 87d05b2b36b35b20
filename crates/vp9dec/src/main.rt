//! `vp9dec` reads IVF or WebM on standard input, writes to standard output, and tells on standard error what is wrong.
#![tactic(auto)]

use edge_io::{Buffered, OpenGate, StdSink, StdSource};
use std::process::ExitCode;
use std::{env, io};
use vp9_app::{Status, run};

/// The words of the command line, the program's name first.
fn command_line(rt: &HostRuntime) -> io::Result<Vec<String>> {
    let mut words = Vec::new(rt.alloc());
    for word in env::args(rt)? {
        words.push(word)?;
    }
    Ok(words)
}

/// Words that can't be read, as such that are no text, are no command.
fn main(rt: HostRuntime) -> ExitCode {
    let words = match command_line(&rt) {
        Ok(words) => words,
        Err(error) if error.kind() == io::ErrorKind::OutOfMemory => {
            let _ = eprintln!(rt; "out of memory");
            return ExitCode::from(Status::OutOfMemory.code());
        }
        Err(_) => Vec::new(rt.alloc()),
    };
    let Ok(source) = Buffered::new(rt.alloc(), StdSource::new(rt.stdin())) else {
        let _ = eprintln!(rt; "out of memory");
        return ExitCode::from(Status::OutOfMemory.code());
    };
    let out = StdSink::new(rt.stdout());
    let note = StdSink::new(rt.stderr());
    let ran = run(
        &rt,
        rt.alloc(),
        words.as_slice(),
        source,
        out,
        note,
        &OpenGate,
    );
    ExitCode::from(ran.status.code())
}

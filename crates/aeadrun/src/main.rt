//! The program `aeadrun`: reads commands as lines on standard input, and writes responses to standard output.
#![tactic(auto)]

use aead_ciphers::aeadrun;
use std::io::{self, BufReader, BufWriter};
use std::process::ExitCode;

fn main(rt: HostRuntime) -> ExitCode {
    let status = match answer_input(&rt) {
        Ok(status) => status,
        Err(_) => aeadrun::FAULT,
    };
    if status == aeadrun::FAULT {
        let _ = eprintln!(rt; "fault");
    }
    ExitCode::from(status)
}

/// Responds to the lines of standard input. Fails only if a buffer of one of the two streams cannot be allocated.
fn answer_input(rt: &(impl Input + Print + AllocGlobal)) -> io::Result<u8> {
    let mut input = BufReader::new(rt.alloc(), rt.reader())?;
    let mut output = BufWriter::new(rt.alloc(), io::writer(rt))?;
    Ok(aeadrun::lines(rt.alloc(), &mut input, &mut output))
}

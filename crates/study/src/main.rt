// The study: a tape on standard input, its log words and the report on standard output, and on standard error which
// record was refused. What a round does is `study_step`'s matter; here the input is read and the text written out. Of
// the input only what no record has used yet is kept, so that a tape may have any length.
#![tactic(auto)]

use std::io::{self, Read, Write};
use std::process::ExitCode;
use study_step::{End, Got, begin, read_start, step};

// All rounds, to the one that ends the program. Answers how.
// Stays: a `for` to a count that no run reaches. Each loop is proved to end, and nobody knows how long the input is: a
// `loop` would need the same count beside it, with its test and its step.
fn run<R: Read, W: Write, E: Write>(
    source: &mut R,
    output: &mut W,
    error: &mut E,
) -> io::Result<End> {
    let mut piece = [0u8; 16384];
    let mut log = [0u32; 2048];
    let mut out = [0u8; 65536];
    let mut run = begin();
    for _ in 0..u64::MAX {
        let got = match read_start(&run) {
            Some(from) => Got::from(source.read(&mut piece[from..])),
            None => Got::Nothing,
        };
        let made = step(&mut run, &mut piece, got, &mut log, &mut out);
        let told = made.told.min(out.len());
        let printed = made.printed.min(told);
        output.write_all(&out[..printed])?;
        // where standard error takes nothing, the status and standard output say enough
        let _ = error.write_all(&out[printed..told]);
        match made.end {
            End::GoesOn => {}
            End::Answered | End::CannotRead => return Ok(made.end),
        }
    }
    Ok(End::Answered)
}

fn main(rt: HostRuntime) -> ExitCode {
    let mut source = rt.stdin();
    let mut output = rt.stdout();
    let mut error = rt.stderr();
    match run(&mut source, &mut output, &mut error) {
        Ok(End::GoesOn | End::Answered) => ExitCode::SUCCESS,
        Ok(End::CannotRead) => ExitCode::from(2),
        Err(_) => {
            let _ = eprintln!(rt; "study: cannot write standard output");
            ExitCode::from(2)
        }
    }
}

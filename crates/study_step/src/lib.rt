// A step of the study's program: all that it does between a read and a write.
#![tactic(auto)]

ghost use Rattle.std.specs.Prelude.{◌≡◌, ◌+◌, take, cond, Some, None};
ghost use Rattle.log_writes.specs.Log.{Wrote};
ghost use Rattle.study_step.specs.Step.{got_of, Steps, begun, stepped, played, cannot_read, program_state, reading};
ghost use Rattle.study_step.specs.Step.{told_of, end_by, is_read_wanted};

use log_writes::Writer;
use std::io;
use study_pieces::{Study, advance};
use study_text::{Place, put_place};
use world::refusal::Refusal;

// A run of the study: how many bytes are kept at the piece's start, and whether the input ended.
#[derive(Clone, Copy)]
pub struct ProgramRun {
    pub study: Study,
    pub held: usize,
    pub ended: bool,
}

// What a read gave: so many bytes behind those that are kept, none at the input's end. Or nothing was to be read.
#[derive(Clone, Copy)]
pub enum Got {
    Bytes(usize),
    Failure,
    Nothing,
}

impl From<io::Result<usize>> for Got {
    ghost from_gives = { λ read got. got ≡ got_of read };

    fn from(read: io::Result<usize>) -> Got {
        match read {
            Ok(count) => Got::Bytes(count),
            Err(_) => Got::Failure,
        }
    }
}

// How a round ends the program: not at all, with the report or a refusal, or for a read that failed.
#[derive(Clone, Copy)]
pub enum End {
    GoesOn,
    Answered,
    CannotRead,
}

// What is to be written: the buffer's first `printed` bytes to standard output, and those behind them, up to `told`, to
// standard error.
#[derive(Clone, Copy)]
pub struct Output {
    pub printed: usize,
    pub told: usize,
    pub end: End,
}

// A run of which nothing is read yet.
// Stays: a function and no Default, as `world::empty` is.
pub fn begin() -> ProgramRun
    ensures { result ≡ begun }
{
    ProgramRun {
        study: study_pieces::begin(),
        held: 0,
        ended: false,
    }
}

// Where in the piece the next round's read puts its bytes, if it makes one.
pub fn read_start(run: &ProgramRun) -> Option<usize>
    ensures { result ≡ cond (is_read_wanted run.now.ended run.now.held) (Some run.now.held) None }
{
    if !run.ended & (run.held < 276) {
        Some(run.held)
    } else {
        None
    }
}

// The line for a read that failed. Answers its length.
fn put_failure(out: &mut [u8; 65536]) -> usize
    ensures { Wrote out.old 0 cannot_read out.new result }
{
    let mut text = Writer::new(out);
    text.put_all(b"study: cannot read standard input\n");
    text.at
}

// Behind the text, which record was refused, where one was. Answers where that ends.
fn put_told(out: &mut [u8; 65536], at: usize, place: Place, refusal: Option<Refusal>) -> usize
    ensures { Wrote out.old at (told_of place refusal) out.new result }
{
    let mut text = Writer { items: out, at };
    if let Some(refusal) = refusal {
        put_place(&mut text, place, refusal);
    }
    text.at
}

// How a round ends the program that read what there was.
fn end_of(over: bool) -> End
    ensures { result ≡ end_by over }
{
    if over { End::Answered } else { End::GoesOn }
}

// What can be done with the kept bytes and so many behind them.
fn play(
    run: &mut ProgramRun,
    piece: &mut [u8; 16384],
    count: usize,
    log: &mut [u32; 2048],
    out: &mut [u8; 65536],
) -> Output
    ensures { Steps run.new result piece.old out.old piece.new log.new out.new
        (played run.old.study log.old (take (run.old.held + count) piece.old) run.old.ended) }
{
    let end = run.held.saturating_add(count);
    let made = advance(&mut run.study, piece, end, run.ended, log, out);
    run.held = made.held;
    Output {
        printed: made.at,
        told: put_told(out, made.at, run.study.place, made.refusal),
        end: end_of(run.study.over),
    }
}

// A round between its read and its write. Of the bytes that it is told of, no more count than there was room for.
pub fn step(
    run: &mut ProgramRun,
    piece: &mut [u8; 16384],
    got: Got,
    log: &mut [u32; 2048],
    out: &mut [u8; 65536],
) -> Output
    ensures { Steps run.new result piece.old out.old piece.new log.new out.new
        (stepped (program_state run.old log.old piece.old) (reading got run.old.held piece.old)) }
{
    match got {
        Got::Bytes(count) => {
            let room = piece.len().saturating_sub(run.held);
            let count = count.min(room);
            run.ended = run.ended | (count == 0);
            play(run, piece, count, log, out)
        }
        Got::Nothing => play(run, piece, 0, log, out),
        Got::Failure => {
            run.study.over = true;
            run.held = run.held.min(piece.len());
            Output {
                printed: 0,
                told: put_failure(out),
                end: End::CannotRead,
            }
        }
    }
}

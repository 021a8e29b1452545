// Small tapes, a line each: a name, '=', and the words, eight hexadecimal digits each; what is no digit is passed
// over. Every record but the last sets the scene. It prints what the last one is answered, or which earlier one was
// refused. A line without '=' is a heading. Of the input no more than 65,536 bytes and 1,000 lines are read, of a tape
// no more than 256 words and 200 records.
#![tactic(auto)]

use log_writes::Log;
use record::record;
use std::fmt;
use std::io::{self, Read, Write};
use world::World;
use world::empty::empty;
use world::refusal::Refusal;

// What a tape ends in whose records are all accepted: the words of the last one, and the world.
#[derive(Drop)]
struct Ended {
    used: usize,
    world: World,
}

// What is loaded, and the hall calls as sets.
impl fmt::Display for Ended {
    fn fmt<W: fmt::Write>(&self, f: &mut fmt::Formatter<W>) -> fmt::Result {
        write!(
            f,
            "accepted, {} words; {} stops {} lines {} cars {} riders, calls up {:x} down {:x}",
            self.used,
            self.world.stops.count,
            self.world.lines.count,
            self.world.cars.count,
            self.world.riders.count,
            self.world.calls.up,
            self.world.calls.down
        )
    }
}

// What ends a tape before its last word: the first refusal, with the record that was refused, counted from 1; or more
// records than are taken.
#[derive(Drop)]
enum Stopped {
    Refused { refusal: Refusal, record: usize },
    TooLong,
}

impl fmt::Display for Stopped {
    fn fmt<W: fmt::Write>(&self, f: &mut fmt::Formatter<W>) -> fmt::Result {
        match self {
            Stopped::Refused { refusal, record } => {
                write!(f, "refused {} at record {record}", u32::from(*refusal))
            }
            Stopped::TooLong => write!(f, "too long"),
        }
    }
}

// Record after record from an empty world. A tape of no word has one record, which is cut short.
// Stays: a loop here and one in test_ticks. That one writes each tick, so it may fail otherwise, and an empty
// tape is none to it: a closure with its bound and its own error would say more than the four lines that the two
// share.
#[tactic(auto, using(claim_conditions::proofs::Taking::uses_some, claim_conditions::proofs::Taking::uses_within))]
fn play(tape: &[u32]) -> Result<Ended, Stopped> {
    let mut log = [0u32; 2048];
    let mut world = empty();
    let mut rest = tape;
    for at in 1..=200 {
        let recorded = record(world, rest, &mut log);
        world = recorded.world;
        match recorded.answer {
            Err(refusal) => {
                return Err(Stopped::Refused {
                    refusal,
                    record: at,
                });
            }
            Ok(accepted) => {
                let used = accepted.used;
                rest = &rest[used..];
                if rest.is_empty() {
                    return Ok(Ended { used, world });
                }
            }
        }
    }
    Err(Stopped::TooLong)
}

// A digit's value. Capitals are no digits here.
fn digit(byte: u8) -> Option<u32> {
    match byte {
        b'0'..=b'9' => Some(u32::from(byte - b'0')),
        b'a'..=b'f' => Some(u32::from(byte - b'a') + 10),
        _ => None,
    }
}

// The words of a tape's text, as many as there is room for.
fn read_words(tape: &[u8], words: &mut Log) {
    let mut word: u32 = 0;
    let mut digits: u8 = 0;
    for byte in tape {
        if let Some(value) = digit(*byte) {
            word = word << 4 | value;
            digits = digits % 8 + 1;
            if digits == 8 {
                words.put(word);
            }
        }
    }
}

// A heading as it is, or a tape's name and its answer.
fn answer<W: Write>(out: &mut W, line: &[u8]) -> io::Result<()> {
    let Some(end) = line.iter().position(|byte| *byte == b'=') else {
        out.write_all(line)?;
        return writeln!(out, "");
    };
    out.write_all(&line[..end])?;
    let mut words = [0u32; 256];
    let mut read = Log::new(&mut words);
    read_words(&line[end..], &mut read);
    let count = read.at.min(words.len());
    match play(&words[..count]) {
        Ok(ended) => writeln!(out, ": {ended}"),
        Err(stopped) => writeln!(out, ": {stopped}"),
    }
}

// The input's first bytes, to its end, to a read that fails, or as many as there is room for. Answers how many.
fn read_text<R: Read>(source: &mut R, text: &mut [u8; 65536]) -> usize {
    let mut held: usize = 0;
    for _ in 0..65536 {
        let from = held.min(text.len());
        match source.read(&mut text[from..]) {
            Ok(count) if 0 < count => held = from.saturating_add(count),
            _ => break,
        }
    }
    held.min(text.len())
}

fn main(rt: HostRuntime) {
    let mut text = [0u8; 65536];
    let count = read_text(&mut rt.stdin(), &mut text).min(text.len());
    let mut out = rt.stdout();
    for line in text[..count]
        .split_inclusive(|byte| *byte == b'\n')
        .take(1000)
    {
        // where standard output takes nothing, there is nobody to tell
        let _ = answer(&mut out, line.strip_suffix(b"\n").unwrap_or(line));
    }
}

// Tapes with ticks, a line each: a name, '=', and the words in hexadecimal with spaces between them. A tape's records
// are taken one after the other from an empty world. It prints the name, and after each tick the tick's words and the
// world; a refusal ends the tape. A line without '=' is a heading. Of a tape no more than 8,192 words are taken, and
// none of one that no line's end closes.
#![tactic(auto)]

mod show; // a tick's lines

ghost use Rattle.std.specs.Prelude.{◌<◌};

use log_writes::Log;
use record::record;
use show::Tick;
use std::io::{self, BufWriter, Read, Write};
use world::empty::empty;

// Record after record from an empty world, up to a refusal. A tick writes a word at least, and no other record writes
// one.
// Stays: a loop here and one in test_records, as it says there.
#[tactic(auto, using(claim_conditions::proofs::Taking::uses_some, claim_conditions::proofs::Taking::uses_within, claim_conditions::proofs::Taking::writes_within, claim_conditions::proofs::Taking::same_length, claim_conditions::proofs::Taking::writes_all))]
fn play<W: Write>(out: &mut W, log: &mut [u32], tape: &[u32]) -> io::Result<()> {
    let mut world = empty();
    let mut rest = tape;
    while !rest.is_empty() {
        let recorded = record(world, rest, log);
        world = recorded.world;
        match recorded.answer {
            Err(refusal) => return writeln!(out, "refused {}", u32::from(refusal)),
            Ok(accepted) => {
                if 0 < accepted.written {
                    let words = &log[..accepted.written];
                    let world = &world;
                    write!(out, "{}", Tick { words, world })?;
                }
                rest = &rest[accepted.used..];
            }
        }
    }
    Ok(())
}

// The value of a digit, capitals among them.
fn digit(byte: u8) -> u32
    ensures { result < 16 }
{
    u32::from((byte % 16 + byte / 64 * 9) % 16)
}

// Where in a line the reading is: in its name, or behind the '=', with what there is of the next word.
#[derive(Clone, Copy)]
enum Reading {
    Name,
    Words(Option<u32>),
}

// One more byte behind a '='. A word ends before what lies below the digits, as blanks do, and the tape is played at
// the line's end. Where the output takes nothing, here and below, there is nobody to tell.
fn with_byte<W: Write>(
    out: &mut W,
    log: &mut [u32],
    tape: &mut Log,
    word: Option<u32>,
    byte: u8,
) -> Reading {
    if b'0' <= byte {
        return Reading::Words(Some(word.unwrap_or(0) << 4 | digit(byte)));
    }
    if let Some(word) = word {
        tape.put(word);
    }
    if byte != b'\n' {
        return Reading::Words(None);
    }
    let count = tape.at.min(tape.items.len());
    let _ = play(out, log, &tape.items[..count]);
    Reading::Name
}

// The next bytes of the input. A name is written as it stands, up to its '='.
fn with_piece<W: Write>(
    out: &mut W,
    log: &mut [u32],
    tape: &mut Log,
    begun: Reading,
    piece: &[u8],
) -> Reading {
    let mut reading = begun;
    let mut name: usize = 0;
    for (at, byte) in piece.iter().enumerate() {
        match reading {
            Reading::Words(word) => {
                reading = with_byte(out, log, tape, word, *byte);
                name = at.saturating_add(1);
            }
            Reading::Name if *byte == b'=' => {
                let _ = out.write_all(piece.get(name..at).unwrap_or(&[]));
                let _ = out.write_all(b"\n");
                tape.at = 0;
                reading = Reading::Words(None);
            }
            Reading::Name => {}
        }
    }
    if let Reading::Name = reading {
        let _ = out.write_all(piece.get(name..).unwrap_or(&[]));
    }
    reading
}

// Stays: a `for` to a count that no run reaches, as in the study.
fn main(rt: HostRuntime) -> io::Result<()> {
    let mut source = rt.stdin();
    let mut out = BufWriter::new(rt.alloc(), rt.stdout())?;
    let mut log = [0u32; 2048];
    let mut words = [0u32; 8192];
    let mut tape = Log::new(&mut words);
    let mut reading = Reading::Name;
    let mut piece = [0u8; 65536];
    for _ in 0..u64::MAX {
        // a read that fails ends the input
        let count = source.read(&mut piece).unwrap_or(0).min(piece.len());
        if count == 0 {
            break;
        }
        reading = with_piece(&mut out, &mut log, &mut tape, reading, &piece[..count]);
    }
    let _ = out.flush();
    Ok(())
}

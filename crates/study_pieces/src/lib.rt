// The study by pieces of its input: the records of the bytes at hand, and the end of the tape.
#![tactic(auto)]

ghost use Rattle.std.specs.Prelude.{◌≡◌, ◌+◌, ◌≤◌, length, take};
ghost use Rattle.study_text.specs.Text.{words_of};
ghost use Rattle.study_pieces.specs.Pieces.{study_state, fresh};
ghost use Rattle.study_pieces.specs.Parts.{PieceOutcome, advanced, play_to, has_next_record as goes_on, IsEmpty, Reached, Closes};

use log_writes::Writer;
use record_lent::record_in_place;
use report::Counts;
use study_numbers::Text;
use study_play::{finish, put_answer};
use study_text::{Place, keep, words_of};
use world::World;
use world::empty::empty;
use world::refusal::Refusal;

// A study between two pieces: the world that it keeps, what was counted, the records and words that are behind it, and
// whether it is over: the report or a refusal is printed, or its input could not be read.
#[derive(Clone, Copy)]
pub struct Study {
    pub world: World,
    pub counts: Counts,
    pub place: Place,
    // Stays: one bit and no enum. World and counts are in both of its variants, and the loop, the tape's end and the
    // program ask for this alone.
    pub over: bool,
}

// How many bytes of what was at hand are kept at the piece's start, how many bytes of text stand at the buffer's, and
// the refusal that is printed there, if one is.
// Stays: counts beside the buffers. The arrays' types hold the lengths that the promise needs; a `Writer` lends a
// slice of any length, and a `Vec` may find no memory.
#[derive(Clone, Copy)]
pub struct Advanced {
    pub held: usize,
    pub at: usize,
    pub refusal: Option<Refusal>,
}

// Where in its words the records of a piece ended, and the refusal at which they did, if one was met.
#[derive(Clone, Copy)]
struct Played {
    from: usize,
    refusal: Option<Refusal>,
}

// A study of a tape of which nothing is read yet.
// Stays: a function and no Default, as `world::empty` is.
pub fn begin() -> Study
    ensures { result ≡ fresh }
{
    Study {
        world: empty(),
        counts: Counts::default(),
        place: Place::default(),
        over: false,
    }
}

// Whether a record is played next: with 69 words any is whole, and where the input has ended what there is must do;
// its text must have room.
fn has_next_record(ended: bool, over: bool, words: usize, at: usize) -> bool
    ensures { result ≡ goes_on ended over words at }
{
    !over & (((69 <= words) | (ended & (0 < words))) & (at < 32768))
}

// The records of the piece, whose words these are, as long as the next one is ready and its text has room. Answers
// where they ended.
// Stays: study, ended, log and out side by side, here and below. The study goes on to the next piece, `ended` is of
// this one, and the two buffers are the program's, lent for one call: a struct of them would be three lent fields
// that `record_in_place` and `put_answer` take apart again.
fn play_words(
    study: &mut Study,
    piece: &[u8],
    words: &[u32],
    ended: bool,
    log: &mut [u32; 2048],
    out: &mut Text,
) -> Played
    requires words { words.now ≡ words_of piece.now }
    requires empty { IsEmpty out.old }
    ensures { Reached study.new result piece.now out.old log.new out.new
        (play_to (2 + length piece.now) ended (study_state study.old log.old piece.now)) }
{
    let mut from: usize = 0;
    let mut refusal = None;
    // Stays: a while: its condition asks what was written last, and a record says itself how many words it used.
    while has_next_record(ended, study.over, words.len() - from, out.at) {
        let answer = record_in_place(&mut study.world, &words[from..], log);
        let used = put_answer(answer, &mut study.counts, &mut study.place, log, out);
        study.over = used.is_err();
        refusal = used.err();
        from += used.unwrap_or(0);
    }
    Played { from, refusal }
}

// The records of these bytes.
fn play_bytes(
    study: &mut Study,
    bytes: &[u8],
    ended: bool,
    log: &mut [u32; 2048],
    out: &mut Text,
) -> Played
    requires few { length bytes.now ≤ 16384 }
    requires empty { IsEmpty out.old }
    ensures { Reached study.new result bytes.now out.old log.new out.new
        (play_to (2 + length bytes.now) ended (study_state study.old log.old bytes.now)) }
{
    let mut words = [0u32; 4096];
    let mut read = Writer::new(&mut words);
    words_of(bytes, &mut read);
    let count = read.at;
    play_words(study, bytes, &words[..count], ended, log, out)
}

// The end of the tape, where the input ended and so many bytes are left: the report, or a refusal. Answers the refusal
// at which the study is over: this one, or the one that its records met.
#[tactic(auto, using(crate::proofs::Going::at_end_lem, crate::proofs::Going::not_at_end))]
fn close(
    study: &mut Study,
    ended: bool,
    left: usize,
    refusal: Option<Refusal>,
    out: &mut Text,
) -> Option<Refusal>
    ensures { Closes study.old ended left refusal out.old study.new result out.new }
{
    if ended & (!study.over & ((left / 4 == 0) & (out.at < 32768))) {
        study.over = true;
        return finish(study.world, study.counts, left, out);
    }
    refusal
}

// What is done with the bytes at hand, the first `held` of the piece: their records, and at the input's end the report.
// The study is changed where it lies. The text stands at the start of `out`; the bytes that no record used are moved to
// the piece's start.
#[tactic(auto, using(crate::proofs::Sizes::taken_few))]
pub fn advance(
    study: &mut Study,
    piece: &mut [u8; 16384],
    held: usize,
    ended: bool,
    log: &mut [u32; 2048],
    out: &mut [u8; 65536],
) -> Advanced
    ensures { PieceOutcome study.new result piece.old out.old piece.new log.new out.new
        (advanced ended (study_state study.old log.old (take held piece.old))) }
{
    let end = held.min(piece.len());
    let mut text = Writer::new(out);
    let played = play_bytes(study, &piece[..end], ended, log, &mut text);
    let used = 4 * played.from;
    let refusal = close(study, ended, end - used, played.refusal, &mut text);
    Advanced {
        held: keep(piece, used, end),
        at: text.at,
        refusal,
    }
}

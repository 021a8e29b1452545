// What a tick sweeps over: systems/movement.rs, `crossed_seam` in run and in tick_manual.
ghost use Rattle.std.specs.Prelude.{◌≡◌};
ghost use Rattle.move_trip.specs.Spans as Spans;

use crate::is_loop;
use world::LineKind;

// A range's ends, and whether a stop at the lower one counts.
#[derive(Clone, Copy)]
pub struct Ends {
    pub lo: f64,
    pub hi: f64,
    pub inclusive: bool,
}

// What a tick sweeps over: one range, or the two of a seam.
#[derive(Clone, Copy)]
pub enum Span {
    Range(Ends),
    Seam(Ends, Ends),
}

// A range above its lower end.
fn above(lo: f64, hi: f64) -> Ends
    ensures { result ≡ Spans.above lo hi }
{
    Ends {
        lo,
        hi,
        inclusive: false,
    }
}

// The range between two places, the lower one first.
fn range(lo: f64, hi: f64) -> Span
    ensures { result ≡ Spans.range lo hi }
{
    Span::Range(above(lo, hi))
}

// A seam's two ranges: to the circle's end, and from 0 on, a stop at 0 too.
fn seam(old: f64, circumference: f64, new: f64) -> Span
    ensures { result ≡ Spans.seam old circumference new }
{
    let from_0 = Ends {
        lo: 0.0,
        hi: new,
        inclusive: true,
    };
    Span::Seam(above(old, circumference), from_0)
}

// run, `crossed_seam` and what follows.
// Stays: beside manual_span. On a line run asks `old < new` and tick_manual `old <= new`, by which the ends 0.0 and
// -0.0 come out the other way round; on a loop a Manual car may go back, and its ends are put in order.
pub fn span_of(kind: LineKind, old: f64, new: f64) -> Span
    ensures { result ≡ Spans.span_of kind old new }
{
    match kind {
        LineKind::Linear if old < new => range(old, new),
        LineKind::Linear => range(new, old),
        LineKind::Loop { circumference, .. } if new < old => seam(old, circumference, new),
        LineKind::Loop { .. } => range(old, new),
    }
}

// The range between two positions.
fn range_between(old: f64, new: f64) -> Span
    ensures { result ≡ Spans.range_between old new }
{
    if old <= new {
        return range(old, new);
    }
    range(new, old)
}

// tick_manual, `crossed_seam` and what follows.
pub fn manual_span(kind: LineKind, old: f64, new: f64, velocity: f64) -> Span
    ensures { result ≡ Spans.manual_span kind old new velocity }
{
    match kind {
        LineKind::Loop { circumference, .. } if (new < old) & (velocity >= 0.0) => {
            seam(old, circumference, new)
        }
        _ => range_between(old, new),
    }
}

// Loop cars always go forward.
pub fn moving_up(kind: LineKind, old: f64, new: f64) -> bool
    ensures { result ≡ Spans.moving_up kind old new }
{
    is_loop(kind) | (old < new)
}

// The record call on a lent world, which it updates in place, and the report of one.
#![tactic(auto)]

ghost use Rattle.std.specs.Prelude.{◌≡◌, true};
ghost use Rattle.report.specs.Report.{report_numbers, report_of};
ghost use Rattle.record_lent.specs.Lent.{Lent, LentCallsHold};

use record::{Answer, record};
use report::{Reported, report};
use world::World;

// One record call: the by-value call on the world that is lent, and the world that it gives put back.
pub fn record_in_place(world: &mut World, words: &[u32], log: &mut [u32]) -> Answer
    ensures { Lent world.old words.now log.old result world.new log.new }
{
    let r = record(*world, words, log);
    *world = r.world;
    r.answer
}

// The report of a lent world and a log's words: the by-value report, and the world left alone. An entry of the
// library: no crate here calls it.
pub fn report_lent(world: &World, words: &[u32]) -> Reported
    ensures reported { result ≡ report_of world.now words.now }
    ensures numbers { report_numbers result ≡ report_numbers (report_of world.now words.now) }
{
    report(*world, words)
}

// Carries the claim that the certificate's calls are these calls.
#[tactic(auto, using(crate::proofs::Lending::lent_calls))]
pub fn lent_calls() -> bool
    ensures { (result ≡ true) × LentCallsHold }
{
    true
}

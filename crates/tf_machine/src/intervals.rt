//! Numbers side by side.

ghost use Rattle.std.specs.Prelude.{◌≡◌, ℕ, ◌<◌, ◌≤◌, true, false, length};
ghost use Rattle.tf_links.specs.Bits.{has};
ghost use Rattle.tf_machine.specs.Intervals.{AreApart, AreBeside, IsZeroless};

use tf_links::Bits;

/// Up to before which place of ascending numbers those from a place on stand side by side. It is found by halving.
#[tactic(auto, using(crate::proofs::IntervalLemmas::one_beside))]
pub fn interval_end(numbers: &[u16], start: usize) -> usize
    requires start { start < length numbers.now }
    requires apart { AreApart numbers.now }
    ensures begins { start < result }
    ensures ends { result ≤ length numbers.now }
    ensures beside { AreBeside numbers.now start result }
{
    let mut end = start + 1;
    let mut past = numbers.len();
    if are_beside(numbers, start, past) {
        return past;
    }
    while end < past {
        let middle = end + (past - end) / 2;
        if are_beside(numbers, start, middle + 1) {
            end = middle + 1;
        } else {
            past = middle;
        }
    }
    end
}

/// Whether ascending numbers from a place on and before another stand side by side.
#[tactic(auto, using(crate::proofs::IntervalLemmas::far_enough, crate::proofs::IntervalLemmas::beside_told))]
fn are_beside(numbers: &[u16], start: usize, end: usize) -> bool
    requires start { start < end }
    requires end { end ≤ length numbers.now }
    requires apart { AreApart numbers.now }
    ensures { result ≡ true → AreBeside numbers.now start end }
{
    let first = numbers[start] as usize;
    let last = numbers[end - 1] as usize;
    last - first == end - 1 - start
}

/// The first place, from one on and before another, at which a zero stands; the other where none does.
#[tactic(auto, using(crate::proofs::IntervalLemmas::zeroless_more))]
pub fn next_zero(counts: &[u16], from: usize, past: usize) -> usize
    requires order { from ≤ past }
    requires room { past ≤ length counts.now }
    ensures from { from ≤ result }
    ensures within { result ≤ past }
    ensures none { IsZeroless counts.now from result }
{
    let start = skip_zeroless(counts, from, past);
    for at in start..past {
        if counts[at] == 0 {
            return at;
        }
    }
    past
}

/// How many places are looked at at once.
const MANY: usize = 32;

/// A place, from one on and up to another, before which no zero stands. Many places are passed at once.
#[tactic(auto, using(crate::proofs::IntervalLemmas::zeroless_start, crate::proofs::IntervalLemmas::zeroless_on))]
fn skip_zeroless(counts: &[u16], from: usize, past: usize) -> usize
    requires order { from ≤ past }
    requires room { past ≤ length counts.now }
    ensures from { from ≤ result }
    ensures within { result ≤ past }
    ensures none { IsZeroless counts.now from result }
{
    let mut at = from;
    while at < past {
        if past - at < MANY || has_zero(counts, at, at + MANY) {
            return at;
        }
        at += MANY;
    }
    at
}

/// Whether a zero stands at a place from one on and before another. The loop has no exit, so that many places are looked at in one instruction.
#[tactic(auto, using(crate::proofs::IntervalLemmas::zeroless_start, crate::proofs::IntervalLemmas::zeroless_told))]
fn has_zero(counts: &[u16], from: usize, past: usize) -> bool
    requires order { from ≤ past }
    requires room { past ≤ length counts.now }
    ensures { result ≡ false → IsZeroless counts.now from past }
{
    let mut found = false;
    for at in from..past {
        found = found | (counts[at] == 0);
    }
    found
}

/// The first number of a set from one on and before another; the other where none is.
pub fn next_in(set: &Bits, from: u16, past: u16) -> u16
    requires { from ≤ past }
    ensures from { from ≤ result }
    ensures within { result ≤ past }
    ensures none { (a : ℕ) → from ≤ a → a < result → has set.now a ≡ false }
{
    if from >= past || set.has(from as usize) {
        return from;
    }
    set.run_end(from as usize, past as usize) as u16
}

// The numbers of one size: exact sums, and comparisons over exchanges.
ghost use Rattle.std.specs.Prelude.{◌≡◌, ◌+◌, ◌*◌, ◌<◌, ◌≤◌, true, false, length, pos, ◌+ℤ◌, Decides, MatchResult};
ghost use Rattle.sets.specs.Bits.{marked, row_words};
ghost use Rattle.matroid.specs.Problem.{weight_of};
ghost use Rattle.matroid.specs.Rules.{allows, Well, Ready};
ghost use Rattle.matroid.specs.TwoRules.{by_first, by_second, BothKept};
ghost use Rattle.certificate.specs.Layout.{part};
ghost use Rattle.certificate.specs.Validity.{Usable};
ghost use Rattle.certificate.specs.Faults.{Outdoes, Misjudged, SplitFault, Clear, Earliest};

use crate::claim::Claim;
use matroid::{Oracle, States};
use sets::bits::contains;
use sets::numbers;
use sets::refusal::Refusal;

// Do two numbers add up to the weight, exactly?
fn adds_up(first: i64, second: i64, weight: u32) -> bool
    ensures { Decides result (first +ℤ second ≡ pos weight) }
{
    first as i128 + second as i128 == weight as i128
}

// The numbers of the offers by one rule: they begin at byte `at` of a certificate, and stand sixteen bytes apart.
#[derive(Clone, Copy)]
struct Numbers<'a> {
    sheet: &'a [u8],
    at: usize,
}

impl Numbers<'_> {
    // The number of offer x.
    fn of(&self, x: usize) -> i64
        requires { self.now.at + 16 * x + 8 ≤ length self.now.sheet.now }
        ensures { result ≡ part self.now.sheet.now self.now.at x }
    {
        numbers::read::<8>(self.sheet, self.at + 16 * x).cast_signed()
    }

    // Has offer x, which is not chosen, a greater number than a chosen one in whose place the rule lets it come?
    fn outdoes(&self, oracle: &Oracle, set: &[u32], state: &[u32], x: usize) -> bool
        requires well { Well oracle.now.file.now oracle.now.n oracle.now.rule }
        requires whole { row_words oracle.now.n ≤ length set.now }
        requires ready { Ready oracle.now.file.now oracle.now.n oracle.now.rule (marked set.now) state.now }
        requires outside { (x < oracle.now.n) × (marked set.now x ≡ false) }
        requires there { self.now.at + 16 * oracle.now.n ≤ length self.now.sheet.now + 8 }
        ensures { Decides result (Outdoes oracle.now.n (allows oracle.now.file.now oracle.now.n oracle.now.rule) (part self.now.sheet.now self.now.at) (marked set.now) x) }
    {
        let own = self.of(x);
        (0..oracle.n).any(|y| {
            contains(set, 0, y) && self.of(y) < own && oracle.can_exchange(set, state, x, y)
        })
    }
}

impl Claim<'_, '_> {
    // Do the numbers of offer x, of those that begin at byte `at`, not add up to its weight, or does it outbid a chosen one?
    fn misjudged(&self, set: &[u32], states: &States, at: usize, x: usize) -> bool
        requires usable { Usable self.now.offers.file.now self.now.offers.problem }
        requires offer { x < self.now.offers.problem.n }
        requires whole { row_words self.now.offers.problem.n ≤ length set.now }
        requires there { at + 16 * self.now.offers.problem.n ≤ length self.now.sheet.now }
        requires ready { BothKept self.now.offers.file.now self.now.offers.problem (marked set.now) (marked set.now) states.now.first.now states.now.second.now }
        ensures { let o = self.now.offers in
            Decides result (Misjudged o.problem.n (by_first o.file.now o.problem) (by_second o.file.now o.problem) (weight_of o.file.now) (part self.now.sheet.now at) (part self.now.sheet.now (at + 8)) (marked set.now) x) }
    {
        let first = Numbers {
            sheet: self.sheet,
            at,
        };
        let second = Numbers {
            sheet: self.sheet,
            at: at + 8,
        };
        if !adds_up(first.of(x), second.of(x), self.offers.weight(x)) {
            return true;
        }
        if contains(set, 0, x) {
            return false;
        }
        first.outdoes(&self.offers.first(), set, states.first, x)
            || second.outdoes(&self.offers.second(), set, states.second, x)
    }

    // The numbers of a set of size k, which begin at byte `at`, offer by offer.
    pub(crate) fn check_numbers(
        &self,
        set: &[u32],
        states: &States,
        at: usize,
        k: usize,
    ) -> Result<(), Refusal>
        requires usable { Usable self.now.offers.file.now self.now.offers.problem }
        requires whole { row_words self.now.offers.problem.n ≤ length set.now }
        requires there { at + 16 * self.now.offers.problem.n ≤ length self.now.sheet.now }
        requires ready { BothKept self.now.offers.file.now self.now.offers.problem (marked set.now) (marked set.now) states.now.first.now states.now.second.now }
        ensures { let o = self.now.offers in let f = by_first o.file.now o.problem in let g = by_second o.file.now o.problem in
            MatchResult result (λ _. Clear (SplitFault o.problem.n f g (weight_of o.file.now) (part self.now.sheet.now at) (part self.now.sheet.now (at + 8)) k (marked set.now)))
            (λ e. Earliest (SplitFault o.problem.n f g (weight_of o.file.now) (part self.now.sheet.now at) (part self.now.sheet.now (at + 8)) k (marked set.now)) e) }
    {
        match (0..self.offers.problem.n).find(|x| self.misjudged(set, states, at, *x)) {
            Some(x) => Err(Refusal::Split(k, x)),
            None => Ok(()),
        }
    }
}

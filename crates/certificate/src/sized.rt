// The set and the numbers of one size.
ghost use Rattle.std.specs.Prelude.{◌≡◌, ℕ, ◌+◌, ◌<◌, ◌≤◌, true, false, length, MatchResult, OnOk};
ghost use Rattle.sets.specs.Bits.{row, row_bytes, marked, row_words};
ghost use Rattle.exchange.specs.Memory.{StatesFit};
ghost use Rattle.matroid.specs.Problem.{weight_of};
ghost use Rattle.matroid.specs.TwoRules.{by_first, by_second, BothKept};
ghost use Rattle.certificate.specs.Layout.{count, needed};
ghost use Rattle.certificate.specs.Validity.{Usable};
ghost use Rattle.certificate.specs.Faults.{SetFault, Clear, Earliest, Right, Wrong, AllRight, SomeWrong};

use crate::claim::Claim;
use crate::layout::row_at;
use matroid::States;
use sets::refusal::{Refusal, Which};
use sets::{bits, words};

impl Claim<'_, '_> {
    // Loads the set at byte `at`, which should have k offers, and asks both rules for it.
    pub(crate) fn check_set(
        &self,
        at: usize,
        k: usize,
        set: &mut [u32],
        states: &mut States,
    ) -> Result<(), Refusal>
        requires usable { Usable self.now.offers.file.now self.now.offers.problem }
        requires whole { at + row_bytes self.now.offers.problem.n ≤ length self.now.sheet.now }
        requires room { row_words self.now.offers.problem.n ≤ length set.old }
        requires states { StatesFit self.now.offers.problem.n states.old }
        ensures fault { let o = self.now.offers in let f = by_first o.file.now o.problem in let g = by_second o.file.now o.problem in
            MatchResult result (λ _. Clear (SetFault o.problem.n f g k (row self.now.sheet.now at)))
            (λ e. Earliest (SetFault o.problem.n f g k (row self.now.sheet.now at)) e) }
        ensures loaded { (v : ℕ) → v < self.now.offers.problem.n → marked set.new v ≡ row self.now.sheet.now at v }
        ensures kept { OnOk result (BothKept self.now.offers.file.now self.now.offers.problem (marked set.new) (marked set.new) states.new.first.now states.new.second.now) }
    {
        let n = self.offers.problem.n;
        words::load_row(self.sheet, at, n, set, 0);
        if bits::count(set, 0, n) != k {
            return Err(Refusal::Refused(k, Which::First));
        }
        if !self.offers.first().independent(set, states.first) {
            return Err(Refusal::Refused(k, Which::First));
        }
        if !self.offers.second().independent(set, states.second) {
            return Err(Refusal::Refused(k, Which::Second));
        }
        Ok(())
    }

    // The set and the numbers of size k.
    fn check_size(&self, k: usize, set: &mut [u32], states: &mut States) -> Result<(), Refusal>
        requires usable { Usable self.now.offers.file.now self.now.offers.problem }
        requires long { length self.now.sheet.now ≡ needed self.now.offers.problem.n self.now.sheet.now }
        requires some { 1 ≤ k }
        requires size { k ≤ count self.now.offers.problem.n self.now.sheet.now }
        requires few { k ≤ 600 }
        requires room { row_words self.now.offers.problem.n ≤ length set.old }
        requires states { StatesFit self.now.offers.problem.n states.old }
        ensures fault { let o = self.now.offers in let f = by_first o.file.now o.problem in let g = by_second o.file.now o.problem in
            MatchResult result (λ _. Right o.problem.n f g (weight_of o.file.now) self.now.sheet.now k)
            (λ e. Wrong o.problem.n f g (weight_of o.file.now) self.now.sheet.now k e) }
        ensures states { OnOk result (StatesFit self.now.offers.problem.n states.new) }
    {
        let at = row_at(self.offers.problem.n, k + 1);
        self.check_set(at, k, set, states)?;
        self.check_numbers(set, states, at + self.offers.problem.n.div_ceil(8), k)
    }

    // All sizes, the smallest first.
    pub(crate) fn check_sizes(
        &self,
        sizes: usize,
        set: &mut [u32],
        states: &mut States,
    ) -> Result<(), Refusal>
        requires usable { Usable self.now.offers.file.now self.now.offers.problem }
        requires long { length self.now.sheet.now ≡ needed self.now.offers.problem.n self.now.sheet.now }
        requires sizes { sizes ≡ count self.now.offers.problem.n self.now.sheet.now }
        requires few { sizes ≤ 600 }
        requires room { row_words self.now.offers.problem.n ≤ length set.old }
        requires states { StatesFit self.now.offers.problem.n states.old }
        ensures { let o = self.now.offers in let f = by_first o.file.now o.problem in let g = by_second o.file.now o.problem in
            MatchResult result (λ _. AllRight o.problem.n f g (weight_of o.file.now) self.now.sheet.now (sizes + 1))
            (λ e. SomeWrong o.problem.n f g (weight_of o.file.now) self.now.sheet.now (sizes + 1) e) }
    {
        for k in 1..sizes + 1 {
            self.check_size(k, set, states)?;
        }
        Ok(())
    }
}

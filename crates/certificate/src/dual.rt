// The dual set of the largest set: on either side of it no further offer can be added.
ghost use Rattle.std.specs.Prelude.{◌≡◌, ℕ, ◌*◌, ◌<◌, ◌≤◌, true, false, not, ◌&&◌, length, Decides, MatchResult};
ghost use Rattle.sets.specs.Bits.{marked, row_words};
ghost use Rattle.sets.specs.Matroid.{pick, both, outside};
ghost use Rattle.exchange.specs.Memory.{StatesFit};
ghost use Rattle.matroid.specs.TwoRules.{by_first, by_second, BothKept};
ghost use Rattle.certificate.specs.Layout.{row_at, largest_set, dual_set};
ghost use Rattle.certificate.specs.Validity.{Usable};
ghost use Rattle.certificate.specs.Faults.{Joins, DualFault, Clear, Earliest};

use crate::claim::Claim;
use crate::layout::row_at;
use matroid::States;
use sets::refusal::Refusal;
use sets::{bits, words};

impl Claim<'_, '_> {
    // Loads what the largest set has inside of the dual set, or what it has outside.
    fn load_side(&self, inner: bool, set: &mut [u32])
        requires whole { row_at self.now.offers.problem.n 2 ≤ length self.now.sheet.now }
        requires room { row_words self.now.offers.problem.n ≤ length set.old }
        ensures { let n = self.now.offers.problem.n in let u = dual_set n self.now.sheet.now in
            (v : ℕ) → v < n → marked set.new v ≡ (largest_set n self.now.sheet.now v && pick inner (u v) (not (u v))) }
    {
        let n = self.offers.problem.n;
        words::load_row(self.sheet, row_at(n, 0), n, set, 0);
        for x in 0..n {
            if self.in_row(1, x) != inner {
                bits::remove(set, 0, x);
            }
        }
    }

    // Loads both sides and asks each side's rule for it, which keeps their states.
    fn load_sides(&self, inside: &mut [u32], beyond: &mut [u32], states: &mut States)
        requires usable { Usable self.now.offers.file.now self.now.offers.problem }
        requires whole { row_at self.now.offers.problem.n 2 ≤ length self.now.sheet.now }
        requires first { by_first self.now.offers.file.now self.now.offers.problem (largest_set self.now.offers.problem.n self.now.sheet.now) ≡ true }
        requires second { by_second self.now.offers.file.now self.now.offers.problem (largest_set self.now.offers.problem.n self.now.sheet.now) ≡ true }
        requires sides { (row_words self.now.offers.problem.n ≤ length inside.old) × (row_words self.now.offers.problem.n ≤ length beyond.old) }
        requires states { StatesFit self.now.offers.problem.n states.old }
        ensures inner { let n = self.now.offers.problem.n in
            (v : ℕ) → v < n → marked inside.new v ≡ both (largest_set n self.now.sheet.now) (dual_set n self.now.sheet.now) v }
        ensures outer { let n = self.now.offers.problem.n in
            (v : ℕ) → v < n → marked beyond.new v ≡ outside (largest_set n self.now.sheet.now) (dual_set n self.now.sheet.now) v }
        ensures kept { BothKept self.now.offers.file.now self.now.offers.problem (marked inside.new) (marked beyond.new) states.new.first.now states.new.second.now }
    {
        self.load_side(true, inside);
        self.load_side(false, beyond);
        self.offers.first().independent(inside, states.first);
        self.offers.second().independent(beyond, states.second);
    }

    // Could offer x be added on its side of the dual set, by that side's rule?
    fn joins(&self, inside: &[u32], beyond: &[u32], states: &States, x: usize) -> bool
        requires usable { Usable self.now.offers.file.now self.now.offers.problem }
        requires whole { row_at self.now.offers.problem.n 2 ≤ length self.now.sheet.now }
        requires offer { x < self.now.offers.problem.n }
        requires sides { (row_words self.now.offers.problem.n ≤ length inside.now) × (row_words self.now.offers.problem.n ≤ length beyond.now) }
        requires inner { let n = self.now.offers.problem.n in
            (v : ℕ) → v < n → marked inside.now v ≡ both (largest_set n self.now.sheet.now) (dual_set n self.now.sheet.now) v }
        requires outer { let n = self.now.offers.problem.n in
            (v : ℕ) → v < n → marked beyond.now v ≡ outside (largest_set n self.now.sheet.now) (dual_set n self.now.sheet.now) v }
        requires ready { BothKept self.now.offers.file.now self.now.offers.problem (marked inside.now) (marked beyond.now) states.now.first.now states.now.second.now }
        ensures { let o = self.now.offers in
            Decides result (Joins (by_first o.file.now o.problem) (by_second o.file.now o.problem) (largest_set o.problem.n self.now.sheet.now) (dual_set o.problem.n self.now.sheet.now) x) }
    {
        if self.in_row(0, x) {
            return false;
        }
        if self.in_row(1, x) {
            return self.offers.first().can_add(inside, states.first, x);
        }
        self.offers.second().can_add(beyond, states.second, x)
    }

    // The dual set, offer by offer.
    pub(crate) fn check_dual(
        &self,
        inside: &mut [u32],
        beyond: &mut [u32],
        states: &mut States,
    ) -> Result<(), Refusal>
        requires usable { Usable self.now.offers.file.now self.now.offers.problem }
        requires whole { row_at self.now.offers.problem.n 2 ≤ length self.now.sheet.now }
        requires first { by_first self.now.offers.file.now self.now.offers.problem (largest_set self.now.offers.problem.n self.now.sheet.now) ≡ true }
        requires second { by_second self.now.offers.file.now self.now.offers.problem (largest_set self.now.offers.problem.n self.now.sheet.now) ≡ true }
        requires sides { (row_words self.now.offers.problem.n ≤ length inside.old) × (row_words self.now.offers.problem.n ≤ length beyond.old) }
        requires states { StatesFit self.now.offers.problem.n states.old }
        ensures fault { let o = self.now.offers in let s = largest_set o.problem.n self.now.sheet.now in let u = dual_set o.problem.n self.now.sheet.now in
            MatchResult result (λ _. Clear (DualFault o.problem.n (by_first o.file.now o.problem) (by_second o.file.now o.problem) s u))
            (λ e. Earliest (DualFault o.problem.n (by_first o.file.now o.problem) (by_second o.file.now o.problem) s u) e) }
        ensures states { StatesFit self.now.offers.problem.n states.new }
    {
        self.load_sides(inside, beyond, states);
        match (0..self.offers.problem.n).find(|x| self.joins(inside, beyond, states, *x)) {
            Some(x) => Err(Refusal::Dual(x)),
            None => Ok(()),
        }
    }
}

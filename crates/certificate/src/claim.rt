// A certificate with the offers that it is for, and its whole check.
ghost use Rattle.std.specs.Prelude.{◌≡◌, ◌+◌, ◌*◌, ◌<◌, ◌≤◌, length, is_ok, Decides, MatchResult};
ghost use Rattle.sets.specs.Bits.{row_words};
ghost use Rattle.exchange.specs.Memory.{StatesFit};
ghost use Rattle.matroid.specs.Problem.{weight_of};
ghost use Rattle.matroid.specs.TwoRules.{by_first, by_second};
ghost use Rattle.certificate.specs.Layout.{count, needed};
ghost use Rattle.certificate.specs.Validity.{Usable, Valid, work_length};
ghost use Rattle.certificate.specs.Faults.{Fault, FirstFault, PartsRight, PartsWrong};

use crate::layout::row_at;
use matroid::{Offers, States, kept_length};
use sets::refusal::{Lent, Refusal};

// How many words of memory the check of a certificate for n offers takes.
pub fn work_length(n: usize) -> usize
    requires { n ≤ 600 }
    ensures { result ≡ work_length n }
{
    2 * n.div_ceil(32) + 2 * kept_length(n)
}

// The bytes of a certificate, with the offers that it is for. That the problem is `Usable` stands in clauses and not here,
// as for `Oracle`.
#[derive(Clone, Copy)]
pub struct Claim<'a, 'b> {
    pub offers: Offers<'a>,
    pub sheet: &'b [u8],
}

impl Claim<'_, '_> {
    // The largest set, its dual set, and each size. What the lent words hold after is free.
    fn check_parts(
        &self,
        sizes: usize,
        set: &mut [u32],
        other: &mut [u32],
        states: &mut States,
    ) -> Result<(), Refusal>
        requires usable { Usable self.now.offers.file.now self.now.offers.problem }
        requires long { length self.now.sheet.now ≡ needed self.now.offers.problem.n self.now.sheet.now }
        requires sizes { sizes ≡ count self.now.offers.problem.n self.now.sheet.now }
        requires sets { (row_words self.now.offers.problem.n ≤ length set.old) × (row_words self.now.offers.problem.n ≤ length other.old) }
        requires states { StatesFit self.now.offers.problem.n states.old }
        ensures { let o = self.now.offers in let f = by_first o.file.now o.problem in let g = by_second o.file.now o.problem in
            MatchResult result (λ _. PartsRight o.problem.n f g (weight_of o.file.now) self.now.sheet.now)
            (λ e. PartsWrong o.problem.n f g (weight_of o.file.now) self.now.sheet.now e) }
    {
        let at = row_at(self.offers.problem.n, 0);
        self.check_set(at, sizes, set, states)?;
        self.check_dual(set, other, states)?;
        self.check_sizes(sizes, set, states)
    }

    // Does the certificate prove what it claims of the offers? How many sizes it has, or its first fault. What the lent
    // words hold after is free.
    pub fn check(&self, work: &mut [u32]) -> Result<usize, Refusal>
        requires { Usable self.now.offers.file.now self.now.offers.problem }
        ensures answer { let o = self.now.offers in let f = by_first o.file.now o.problem in let g = by_second o.file.now o.problem in
            MatchResult result (λ k. (k ≡ count o.problem.n self.now.sheet.now) × Valid o.problem.n f g (weight_of o.file.now) self.now.sheet.now × (work_length o.problem.n ≤ length work.old))
            (λ e. FirstFault (Fault o.problem.n f g (weight_of o.file.now) self.now.sheet.now (length work.old)) e) }
        ensures exact { let o = self.now.offers in let f = by_first o.file.now o.problem in let g = by_second o.file.now o.problem in
            Decides (is_ok result) (Valid o.problem.n f g (weight_of o.file.now) self.now.sheet.now × (work_length o.problem.n ≤ length work.old)) }
    {
        let n = self.offers.problem.n;
        let sizes = self.check_layout()?;
        if work.len() < work_length(n) {
            return Err(Refusal::Short(Lent::Work));
        }
        let row = n.div_ceil(32);
        let (set, rest) = work.split_at_mut(row);
        let (other, kept) = rest.split_at_mut(row);
        let (first, second) = kept.split_at_mut(kept_length(n));
        let mut states = States { first, second };
        self.check_parts(sizes, set, other, &mut states)?;
        Ok(sizes)
    }
}

// The bytes of a certificate: their number, and rows with no bit behind the last offer.
ghost use Rattle.std.specs.Prelude.{◌≡◌, ℕ, ◌+◌, ◌-◌, ◌*◌, ◌/◌, ◌^◌, ◌<◌, ◌≤◌, length, MatchResult};
ghost use Rattle.sets.specs.Bits.{row, row_bytes};
ghost use Rattle.certificate.specs.Layout.{row_at, count, needed, Clean};
ghost use Rattle.certificate.specs.Faults.{RowFault, ByteFault, Clear, Earliest};

use crate::claim::Claim;
use sets::bits;
use sets::refusal::{Refusal, Source};

// Where row i begins.
pub fn row_at(n: usize, i: usize) -> usize
    requires few { n ≤ 600 }
    requires rows { i ≤ 602 }
    ensures exact { result ≡ row_at n i }
    ensures small { result < 2 ^ 32 }
{
    i * n.div_ceil(8) + i.saturating_sub(2) * (16 * n)
}

impl Claim<'_, '_> {
    // Is offer x in row i?
    pub(crate) fn in_row(&self, i: usize, x: usize) -> bool
        requires rows { i ≤ 602 }
        requires offer { x < self.now.offers.problem.n }
        requires whole { row_at self.now.offers.problem.n i + row_bytes self.now.offers.problem.n ≤ length self.now.sheet.now }
        ensures { result ≡ row self.now.sheet.now (row_at self.now.offers.problem.n i) x }
    {
        bits::contains(self.sheet, row_at(self.offers.problem.n, i), x)
    }

    // Is the row at byte `at` whole, with no bit from n on?
    fn check_row(&self, at: usize) -> Result<(), Refusal>
        requires some { 1 ≤ self.now.offers.problem.n }
        requires small { at < 2 ^ 32 }
        ensures { MatchResult result (λ _. Clean self.now.offers.problem.n self.now.sheet.now at)
            (λ e. RowFault self.now.offers.problem.n self.now.sheet.now at e) }
    {
        let n = self.offers.problem.n;
        let len = n.div_ceil(8);
        if self.sheet.len() < at + len {
            return Err(Refusal::Length(Source::Certificate, self.sheet.len()));
        }
        match (n..8 * len).find(|j| bits::contains(self.sheet, at, *j)) {
            Some(j) => Err(Refusal::Range(Source::Certificate, at + j / 8)),
            None => Ok(()),
        }
    }

    // Are the first rows clean, one after the other?
    fn check_rows(&self, rows: usize) -> Result<(), Refusal>
        requires some { 1 ≤ self.now.offers.problem.n }
        requires rows { rows ≤ 602 }
        ensures { let n = self.now.offers.problem.n in
            MatchResult result (λ _. (i : ℕ) → i < rows → Clean n self.now.sheet.now (row_at n i))
            (λ e. (i : ℕ) × (i < rows) × RowFault n self.now.sheet.now (row_at n i) e × ((h : ℕ) → h < i → Clean n self.now.sheet.now (row_at n h))) }
    {
        for i in 0..rows {
            self.check_row(row_at(self.offers.problem.n, i))?;
        }
        Ok(())
    }

    // How many sizes there are: as many as the largest set has offers.
    fn count_sizes(&self) -> usize
        requires { Clean self.now.offers.problem.n self.now.sheet.now (row_at self.now.offers.problem.n 0) }
        ensures exact { result ≡ count self.now.offers.problem.n self.now.sheet.now }
        ensures few { result ≤ 600 }
    {
        bits::count(
            self.sheet,
            row_at(self.offers.problem.n, 0),
            self.offers.problem.n,
        )
    }

    // The bytes of the certificate, front to back: how many sizes it has, or the first byte in fault.
    pub(crate) fn check_layout(&self) -> Result<usize, Refusal>
        requires { 1 ≤ self.now.offers.problem.n }
        ensures { let n = self.now.offers.problem.n in
            MatchResult result (λ k. (k ≡ count n self.now.sheet.now) × Clear (ByteFault n self.now.sheet.now))
            (λ e. Earliest (ByteFault n self.now.sheet.now) e) }
    {
        self.check_rows(2)?;
        let count = self.count_sizes();
        self.check_rows(count + 2)?;
        let needed = row_at(self.offers.problem.n, count + 2);
        if self.sheet.len() != needed {
            return Err(Refusal::Length(Source::Certificate, self.sheet.len().min(needed)));
        }
        Ok(count)
    }
}

// A file of offers and a certificate for it, whatever their bytes are.

ghost use Rattle.std.specs.Prelude.{length, MatchResult};
ghost use Rattle.matroid.specs.declared.problem.Problem.{Problem};
ghost use Rattle.certificate.specs.Accepted.{Certified, Proven, FirstRefusal};

use crate::claim::Claim;
use matroid::Offers;
use matroid::problem::read;
use sets::refusal::Refusal;

// Does the certificate prove what it claims of the file's offers? How many offers the largest choice has, or the first
// fault. What the lent words hold after is free.
pub fn check(file: &[u8], sheet: &[u8], work: &mut [u32]) -> Result<usize, Refusal>
    ensures { MatchResult result (λ k. (problem : Problem) × Certified file.now sheet.now (length work.old) problem × Proven file.now sheet.now problem k)
        (λ e. FirstRefusal file.now sheet.now (length work.old) e × ((problem : Problem) → Certified file.now sheet.now (length work.old) problem → ⊥)) }
{
    let problem = read(file)?;
    let offers = Offers { file, problem };
    Claim { offers, sheet }.check(work)
}

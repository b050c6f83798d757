// A choice, its certificate, and the check of that certificate in one call.
ghost use Rattle.std.specs.Prelude.{◌≡◌, ℕ, ◌+◌, ◌*◌, ◌<◌, ◌≤◌, length, take, is_ok, Ok, Err, MatchResult, slice_index};
ghost use Rattle.sets.specs.Bits.{row_bytes};
ghost use Rattle.matroid.specs.Problem.{weight_of, Means};
ghost use Rattle.matroid.specs.declared.problem.Problem.{Problem};
ghost use Rattle.weighted.specs.Choice.{Chosen};
ghost use Rattle.certificate.specs.Layout.{row_at};
ghost use Rattle.matroid.specs.TwoRules.{by_first, by_second};
ghost use Rattle.certificate.specs.Validity.{Valid, work_length};
ghost use Rattle.certificate.specs.Writing.{Written};
ghost use Rattle.certificate.specs.Completeness.{all_admitted, Checked};

use crate::layout::row_at;
use crate::offers::check;
use crate::writing::write_sheet;
use matroid::Offers;
use matroid::problem::read;
use sets::refusal::{Lent, Refusal};
use weighted::choose;

// Writes the certificate of a choice, and checks what was written: the check accepts. What the lent words hold after is free.
fn write_and_check(
    offers: &Offers,
    size: usize,
    sets: &[u8],
    numbers: &[u64],
    sheet: &mut [u8],
    work: &mut [u32],
) -> Result<usize, Refusal>
    requires meaning { Means offers.now.file.now offers.now.problem }
    requires choice { let o = offers.now in
        Chosen o.problem.n (by_first o.file.now o.problem) (by_second o.file.now o.problem) (weight_of o.file.now) sets.now numbers.now size }
    requires most { size ≤ offers.now.problem.n }
    requires bits { (size + 2) * row_bytes offers.now.problem.n ≤ length sets.now }
    requires parts { 2 * (size * offers.now.problem.n) ≤ length numbers.now }
    requires room { row_at offers.now.problem.n (size + 2) ≤ length sheet.old }
    requires words { work_length offers.now.problem.n ≤ length work.old }
    ensures answer { result ≡ Ok size }
    ensures written { Written offers.now.problem.n sets.now numbers.now sheet.new (size + 2) }
    ensures behind { (p : ℕ) → row_at offers.now.problem.n (size + 2) ≤ p → slice_index sheet.new p ≡ slice_index sheet.old p }
    ensures valid { let o = offers.now in
        Valid o.problem.n (by_first o.file.now o.problem) (by_second o.file.now o.problem) (weight_of o.file.now) (take (row_at o.problem.n (size + 2)) sheet.new) }
{
    let n = offers.problem.n;
    write_sheet(n, size, sets, numbers, sheet);
    let end = row_at(n, size + 2);
    check(offers.file, &sheet[..end], work)
}

// Chooses from a file of offers, writes the certificate to the front of the lent `sheet`, and checks those bytes: how many
// offers the largest choice has. The check accepts what was written, so the only refusals are those of the file and of
// lent memory: a `sheet` that is shorter than the longest certificate of so many offers is refused as too short for the
// sets, before anything is chosen. In a refusal all lent memory is as it was; else what `work` holds is free.
pub fn choose_and_check(
    file: &[u8],
    sets: &mut [u8],
    numbers: &mut [u64],
    sheet: &mut [u8],
    work: &mut [u32],
) -> Result<usize, Refusal>
    ensures accepted { is_ok result ≡ is_ok (all_admitted file.now (length sets.old) (length numbers.old) (length sheet.old) (length work.old)) }
    ensures answer { MatchResult result (λ size. (problem : Problem) × (all_admitted file.now (length sets.old) (length numbers.old) (length sheet.old) (length work.old) ≡ Ok problem) × Checked file.now problem size sets.old numbers.old sheet.old sets.new numbers.new sheet.new)
        (λ e. (all_admitted file.now (length sets.old) (length numbers.old) (length sheet.old) (length work.old) ≡ Err e) × (sets.new ≡ sets.old) × (numbers.new ≡ numbers.old) × (sheet.new ≡ sheet.old) × (work.new ≡ work.old)) }
{
    let problem = read(file)?;
    if sheet.len() < row_at(problem.n, problem.n + 2) {
        return Err(Refusal::Short(Lent::Sets));
    }
    let answer = choose(file, sets, numbers, work)?;
    let offers = Offers { file, problem };
    write_and_check(&offers, answer.size, sets, numbers, sheet, work)
}

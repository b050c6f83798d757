// The public call: a heaviest choice for every size from the bytes of a file of offers.
ghost use Rattle.std.specs.Prelude.{◌≡◌, ℕ, ◌+◌, ◌*◌, ◌<◌, ◌≤◌, length, Ok, Err, MatchResult, slice_index};
ghost use Rattle.exchange.specs.Graph.{at};
ghost use Rattle.exchange.specs.Round.{top};
ghost use Rattle.matroid.specs.Problem.{weight_of};
ghost use Rattle.matroid.specs.declared.problem.Problem.{Problem};
ghost use Rattle.matroid.specs.TwoRules.{by_first, by_second, BothWell};
ghost use Rattle.sets.specs.Bits.{row_words, row_bytes};
ghost use Rattle.weighted.specs.Choice.{sets_length, numbers_length, work_length, all_calls, admitted, Chosen, Choice};

use crate::parts::load_weights;
use crate::turn::{Answer, all_rounds};
use exchange::paths::Workspace;
use matroid::problem::read;
use matroid::{Offers, kept_length};
use sets::bits::clear;
use sets::refusal::{Lent, Refusal};

// Shares out the lent words, and chooses.
fn choose_in(offers: &Offers, sets: &mut [u8], numbers: &mut [u64], work: &mut [u32]) -> Answer
    requires some { 1 ≤ offers.now.problem.n }
    requires room { (sets_length offers.now.problem.n ≤ length sets.old) × (numbers_length offers.now.problem.n ≤ length numbers.old) }
    requires well { BothWell offers.now.file.now offers.now.problem }
    requires words { work_length offers.now.problem.n ≤ length work.old }
    requires weights { 2 + 4 * offers.now.problem.n ≤ length offers.now.file.now }
    requires light { (x : ℕ) → x < offers.now.problem.n → weight_of offers.now.file.now x ≤ top }
    ensures chosen { Chosen offers.now.problem.n (by_first offers.now.file.now offers.now.problem) (by_second offers.now.file.now offers.now.problem) (weight_of offers.now.file.now) sets.new numbers.new result.size }
    ensures counts { (result.rounds ≡ result.size) × (result.calls ≡ all_calls offers.now.problem.n result.size) }
    ensures rest { (p : ℕ) → 2 * (result.size * offers.now.problem.n) ≤ p → slice_index numbers.new p ≡ slice_index numbers.old p }
    ensures others { (p : ℕ) → (result.size + 2) * row_bytes offers.now.problem.n ≤ p → slice_index sets.new p ≡ slice_index sets.old p }
{
    let n = offers.problem.n;
    let words = (n + 31) / 32;
    let (weights, work) = work.split_at_mut(n);
    let (potentials, work) = work.split_at_mut(n);
    let (set, work) = work.split_at_mut(words);
    load_weights(offers, weights);
    clear(potentials, 0, n);
    clear(set, 0, words);
    let mut space = Workspace::share(n, work);
    all_rounds(offers, weights, potentials, set, &mut space, sets, numbers)
}

// Chooses from a file of offers, whatever its bytes are. `sets` then holds a largest set, its dual set and the set of each
// size from 1 on; `numbers` for each size and offer the two parts of its weight, signed numbers in their 64 bits. Where the
// file or the lent memory is refused, all lent memory is as it was; else what `work` holds is free.
pub fn choose(
    file: &[u8],
    sets: &mut [u8],
    numbers: &mut [u64],
    work: &mut [u32],
) -> Result<Answer, Refusal>
    ensures { MatchResult result (λ answer. (problem : Problem) × (admitted file.now (length sets.old) (length numbers.old) (length work.old) ≡ Ok problem) × Choice file.now problem answer.size answer.rounds answer.calls sets.old numbers.old sets.new numbers.new) (λ e. (admitted file.now (length sets.old) (length numbers.old) (length work.old) ≡ Err e) × (sets.new ≡ sets.old) × (numbers.new ≡ numbers.old) × (work.new ≡ work.old)) }
{
    let problem = read(file)?;
    let n = problem.n;
    if sets.len() < (n + 2) * ((n + 7) / 8) {
        return Err(Refusal::Short(Lent::Sets));
    }
    if numbers.len() < 2 * (n * n) {
        return Err(Refusal::Short(Lent::Numbers));
    }
    if work.len() < 5 * n + (n + 6) * ((n + 31) / 32) + 2 * kept_length(n) {
        return Err(Refusal::Short(Lent::Work));
    }
    Ok(choose_in(&Offers { file, problem }, sets, numbers, work))
}

// Round after round: one offer more each time, until there is no augmenting path.
ghost use Rattle.std.specs.Prelude.{◌≡◌, ℕ, suc, ◌+◌, ◌-◌, ◌*◌, ◌<◌, ◌≤◌, false, length, MatchOption, slice_index};
ghost use Rattle.exchange.specs.Graph.{at};
ghost use Rattle.exchange.specs.Memory.{SpaceFits};
ghost use Rattle.exchange.specs.Round.{top, State, Closed};
ghost use Rattle.matroid.specs.TwoRules.{by_first, by_second, BothWell};
ghost use Rattle.sets.specs.Bits.{marked, row_words, row_bytes};
ghost use Rattle.sets.specs.Matroid.{size};
ghost use Rattle.weighted.specs.Choice.{sets_length, numbers_length, all_calls, Chosen};
ghost use Rattle.weighted.specs.Next.{Added};

use crate::parts::{raise, write_largest, write_size};
use exchange::graph::Prices;
use exchange::paths::Workspace;
use matroid::Offers;

// What a round did: how many exchanges it asked, and the loss after it where it added an offer.
#[derive(Clone, Copy)]
pub struct Step {
    pub asked: u64,
    pub loss: Option<u32>,
}

// One round. Where there is an augmenting path, the set has its elements changed and the potentials are raised;
// else the workspace's dual set is one of the set. What its tables and labels hold after is free.
pub fn advance(
    offers: &Offers,
    weights: &[u32],
    loss: u32,
    potentials: &mut [u32],
    set: &mut [u32],
    space: &mut Workspace,
) -> Step
    requires set { row_words offers.now.problem.n ≤ length set.old }
    requires numbers { (offers.now.problem.n ≤ length weights.now) × (offers.now.problem.n ≤ length potentials.old) }
    requires room { SpaceFits offers.now.problem.n space.old }
    requires well { BothWell offers.now.file.now offers.now.problem }
    requires light { (x : ℕ) → x < offers.now.problem.n → at weights.now x ≤ top }
    requires state { State offers.now.problem.n (by_first offers.now.file.now offers.now.problem) (by_second offers.now.file.now offers.now.problem) (at weights.now) (at potentials.old) loss (marked set.old) }
    requires low { loss ≤ size offers.now.problem.n (marked set.old) * top }
    ensures asked { result.asked ≡ 2 * size offers.now.problem.n (marked set.old) * (offers.now.problem.n - size offers.now.problem.n (marked set.old)) }
    ensures ends { MatchOption result.loss ((set.new ≡ set.old) × Closed offers.now.problem.n (by_first offers.now.file.now offers.now.problem) (by_second offers.now.file.now offers.now.problem) (marked set.old) (marked space.new.dual.now)) (λ l. Added offers.now.problem.n (by_first offers.now.file.now offers.now.problem) (by_second offers.now.file.now offers.now.problem) (at weights.now) (at potentials.new) l (marked set.old) (marked set.new)) }
    ensures room { SpaceFits offers.now.problem.n space.new }
{
    let prices = Prices {
        weights,
        potentials,
    };
    let outcome = space.find_path(offers, &prices, set);
    let asked = outcome.asked;
    let Some(end) = outcome.end else {
        return Step { asked, loss: None };
    };
    let risen = space.labels.loss(&prices, end);
    raise(offers.problem.n, &space.labels, risen - loss, potentials);
    space.labels.toggle(set, end);
    Step {
        asked,
        loss: Some(risen),
    }
}

// What was chosen: how many offers a largest set has, the rounds that added one, and how many exchanges were asked.
#[derive(Clone, Copy)]
pub struct Answer {
    pub size: usize,
    pub rounds: usize,
    pub calls: u64,
}

// All rounds from the empty set on: a heaviest set for every size, and a largest one with its dual set. What the other lent
// memory holds after is free.
pub fn all_rounds(
    offers: &Offers,
    weights: &[u32],
    potentials: &mut [u32],
    set: &mut [u32],
    space: &mut Workspace,
    sets: &mut [u8],
    numbers: &mut [u64],
) -> Answer
    requires set { row_words offers.now.problem.n ≤ length set.old }
    requires numbers { (offers.now.problem.n ≤ length weights.now) × (offers.now.problem.n ≤ length potentials.old) }
    requires space { SpaceFits offers.now.problem.n space.old }
    requires room { (sets_length offers.now.problem.n ≤ length sets.old) × (numbers_length offers.now.problem.n ≤ length numbers.old) }
    requires well { BothWell offers.now.file.now offers.now.problem }
    requires light { (x : ℕ) → x < offers.now.problem.n → at weights.now x ≤ top }
    requires none { ((x : ℕ) → x < offers.now.problem.n → marked set.old x ≡ false) × ((x : ℕ) → x < offers.now.problem.n → at potentials.old x ≡ 0) }
    ensures chosen { Chosen offers.now.problem.n (by_first offers.now.file.now offers.now.problem) (by_second offers.now.file.now offers.now.problem) (at weights.now) sets.new numbers.new result.size }
    ensures counts { (result.rounds ≡ result.size) × (result.calls ≡ all_calls offers.now.problem.n result.size) }
    ensures rest { (p : ℕ) → 2 * (result.size * offers.now.problem.n) ≤ p → slice_index numbers.new p ≡ slice_index numbers.old p }
    ensures others { (p : ℕ) → (result.size + 2) * row_bytes offers.now.problem.n ≤ p → slice_index sets.new p ≡ slice_index sets.old p }
{
    let n = offers.problem.n;
    let mut size = 0;
    let mut loss = 0;
    let mut calls = 0;
    loop {
        let step = advance(offers, weights, loss, potentials, set, space);
        calls += step.asked;
        let Some(risen) = step.loss else {
            write_largest(n, set, space.dual, sets);
            return Answer {
                size,
                rounds: size,
                calls,
            };
        };
        write_size(n, weights, potentials, set, size, sets, numbers);
        loss = risen;
        size += 1;
    }
}

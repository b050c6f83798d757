// The end of a best path, and the set with the path's elements changed.
ghost use Rattle.std.specs.Prelude.{◌≡◌, ℕ, ◌+◌, ◌*◌, ◌<◌, ◌≤◌, true, false, not, length, IfSome, MatchOption};
ghost use Rattle.exchange.specs.Graph.{at, SmallLabels, Least};
ghost use Rattle.exchange.specs.Round.{top, no_worse, lost, behind, flipped, toggled};
ghost use Rattle.sets.specs.Bits.{marked, row_words};
ghost use Rattle.sets.specs.Matroid.{both};

use crate::graph::Prices;
use crate::rows::{holds, put};

// The largest weight.
const TOP: u32 = 1_000_000;

// What the path that ends in x loses.
pub fn loss(prices: &Prices, costs: &[u32], x: usize) -> u32
    requires weights { x < length prices.now.weights.now }
    requires potentials { x < length prices.now.potentials.now }
    requires costs { x < length costs.now }
    requires light { at prices.now.weights.now x ≤ top }
    requires small { at costs.now x + at prices.now.potentials.now x ≤ 602 * top }
    ensures { result ≡ lost (at prices.now.weights.now) (at prices.now.potentials.now) (at costs.now) x }
{
    costs[x] + prices.potentials[x] + (TOP - prices.weights[x])
}

// Is the path that ends in x better than the best so far?
fn better_end(
    n: usize,
    prices: &Prices,
    costs: &[u32],
    steps: &[u32],
    x: usize,
    best: Option<usize>,
) -> bool
    requires weights { n ≤ length prices.now.weights.now }
    requires potentials { n ≤ length prices.now.potentials.now }
    requires costs { n ≤ length costs.now }
    requires steps { n ≤ length steps.now }
    requires light { (v : ℕ) → v < n → at prices.now.weights.now v ≤ top }
    requires below { x < n }
    requires small { at costs.now x + at prices.now.potentials.now x ≤ 602 * top }
    requires so_far { IfSome best (λ t. (t < n) × (at costs.now t + at prices.now.potentials.now t ≤ 602 * top)) }
    ensures { MatchOption best (result ≡ true) (λ t. result ≡ not (no_worse (lost (at prices.now.weights.now) (at prices.now.potentials.now) (at costs.now) t) (at steps.now t) (lost (at prices.now.weights.now) (at prices.now.potentials.now) (at costs.now) x) (at steps.now x))) }
{
    match best {
        Some(t) => (loss(prices, costs, x), steps[x]) < (loss(prices, costs, t), steps[t]),
        None => true,
    }
}

// The reached sink below n at which the path loses least, and of these the one of fewest steps.
pub fn best_end(
    n: usize,
    prices: &Prices,
    sinks: &[u32],
    reached: &[u32],
    costs: &[u32],
    steps: &[u32],
) -> Option<usize>
    requires few { n ≤ 600 }
    requires whole { row_words n ≤ length sinks.now }
    requires reached { row_words n ≤ length reached.now }
    requires costs { n ≤ length costs.now }
    requires steps { n ≤ length steps.now }
    requires weights { n ≤ length prices.now.weights.now }
    requires potentials { n ≤ length prices.now.potentials.now }
    requires light { (x : ℕ) → x < n → at prices.now.weights.now x ≤ top }
    requires small { SmallLabels n (at prices.now.weights.now) (at prices.now.potentials.now) (marked reached.now) (at costs.now) (at steps.now) n }
    ensures { MatchOption result ((x : ℕ) → x < n → both (marked sinks.now) (marked reached.now) x ≡ false) (λ t. Least n (both (marked sinks.now) (marked reached.now)) (lost (at prices.now.weights.now) (at prices.now.potentials.now) (at costs.now)) (at steps.now) t) }
{
    // A loop, since of a chain of `filter` and `min_by_key` it is not proved that it gives a least one.
    let mut best = None;
    for x in 0..n {
        if holds(sinks, x) && holds(reached, x) && better_end(n, prices, costs, steps, x, best) {
            best = Some(x);
        }
    }
    best
}

// Changes the side of x.
fn flip(set: &mut [u32], x: usize)
    requires { x < 32 * length set.old }
    ensures { (j : ℕ) → marked set.new j ≡ flipped (marked set.old) x j }
{
    let there = holds(set, x);
    put(set, x, !there);
}

// Changes the side of each element of the path of so many steps that ends in `end`.
pub fn toggle_path(set: &mut [u32], back: &[u32], end: usize, steps: u32)
    requires { (j : ℕ) → j < steps → (behind (at back.now) end j < length back.now) × (behind (at back.now) end j < 32 * length set.old) }
    ensures { (x : ℕ) → marked set.new x ≡ toggled (marked set.old) (at back.now) end steps x }
{
    let mut v = end;
    for _ in 0..steps {
        flip(set, v);
        v = back[v] as usize;
    }
}

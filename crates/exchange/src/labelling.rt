// Labels from the sources: by cost and then by steps, the least unsettled label settled first.
ghost use Rattle.std.specs.Prelude.{◌≡◌, ℕ, ◌+◌, ◌*◌, ◌<◌, ◌≤◌, true, false, not, ◌&&◌, ◌||◌, length, IfSome, MatchOption, ◌==◌};
ghost use Rattle.exchange.specs.Graph.{at, takes, bettered, Changed, Cheapest, SmallLabels, Least};
ghost use Rattle.exchange.specs.Labelling.{arcs_of, costs_of, LabelsFit, SameMemory};
ghost use Rattle.exchange.specs.Rows.{First};
ghost use Rattle.exchange.specs.Round.{top, no_worse, lost, behind, toggled};
ghost use Rattle.sets.specs.Bits.{marked, row_words};
ghost use Rattle.sets.specs.Matroid.{both, outside};

use crate::ends;
use crate::graph::{Graph, Prices};
use crate::rows::{Members, holds, next_head, put};
use sets::bits::{clear, copy};

// Labels in lent words: which elements are reached and which of these are settled, what the way there costs, its steps and
// the element before.
#[derive(Drop)]
pub struct Labelling<'a> {
    pub reached: &'a mut [u32],
    pub settled: &'a mut [u32],
    pub costs: &'a mut [u32],
    pub steps: &'a mut [u32],
    pub back: &'a mut [u32],
}

// Makes the first n numbers equal to the value; the others stay.
fn fill_front(numbers: &mut [u32], n: usize, value: u32)
    requires { n ≤ length numbers.old }
    ensures front { (x : ℕ) → x < n → at numbers.new x ≡ value }
    ensures rest { (x : ℕ) → n ≤ x → at numbers.new x ≡ at numbers.old x }
{
    numbers[..n].fill(value);
}

impl Labelling<'_> {
    // Is there no label at u, or a worse one than (cost, step)?
    fn takes(&self, u: usize, cost: u32, step: u32) -> bool
        requires { LabelsFit (u + 1) self.now }
        ensures { result ≡ takes (marked self.now.reached.now) (at self.now.costs.now) (at self.now.steps.now) u cost step }
    {
        !holds(self.reached, u) || (cost, step) < (self.costs[u], self.steps[u])
    }

    // Takes the label (cost, step) by way of v at u, where u has none or a worse one.
    fn improve(&mut self, u: usize, cost: u32, step: u32, v: usize)
        requires fit { LabelsFit (u + 1) self.old }
        requires small { v ≤ 600 }
        ensures labels { (j : ℕ) → Changed (λ _. cost) step v (λ i. (i == u) && takes (marked self.old.reached.now) (at self.old.costs.now) (at self.old.steps.now) u cost step) (marked self.old.reached.now) (marked self.new.reached.now) (at self.old.costs.now) (at self.old.steps.now) (at self.old.back.now) (at self.new.costs.now) (at self.new.steps.now) (at self.new.back.now) j }
        ensures settled { self.new.settled.now ≡ self.old.settled.now }
        ensures memory { SameMemory self.old self.new }
    {
        if self.takes(u, cost, step) {
            put(self.reached, u, true);
            self.costs[u] = cost;
            self.steps[u] = step;
            self.back[u] = v as u32;
        }
    }

    // Betters the labels of all unsettled elements to which an arc leads from v.
    fn relax(&mut self, graph: &Graph, v: usize)
        requires fit { LabelsFit graph.now.n self.old }
        requires below { v < graph.now.n }
        requires cost { at self.old.costs.now v + at graph.now.prices.potentials.now v ≤ 603 * top }
        requires steps { at self.old.steps.now v ≤ 601 }
        ensures labels { (u : ℕ) → u < graph.now.n → Changed (λ i. at self.old.costs.now v + costs_of graph.now v i) (at self.old.steps.now v + 1) v (bettered (arcs_of graph.now) (costs_of graph.now) (marked self.old.settled.now) (marked self.old.reached.now) (at self.old.costs.now) (at self.old.steps.now) v) (marked self.old.reached.now) (marked self.new.reached.now) (at self.old.costs.now) (at self.old.steps.now) (at self.old.back.now) (at self.new.costs.now) (at self.new.steps.now) (at self.new.back.now) u }
        ensures settled { self.new.settled.now ≡ self.old.settled.now }
        ensures memory { SameMemory self.old self.new }
    {
        let inside = holds(graph.set, v);
        let paid = self.costs[v];
        let step = self.steps[v] + 1;
        // A `for` over Members would keep the settled row lent while the labels change.
        let mut from = 0;
        while let Some(u) = self.next_head(graph, v, from) {
            let cost = graph.arrival(inside, paid, v, u);
            self.improve(u, cost, step, v);
            from = u + 1;
        }
    }

    // The first unsettled element from `from` on to which an arc leads from v.
    fn next_head(&self, graph: &Graph, v: usize, from: usize) -> Option<usize>
        requires fit { LabelsFit graph.now.n self.now }
        requires below { v < graph.now.n }
        ensures { First (outside (arcs_of graph.now v) (marked self.now.settled.now)) from graph.now.n result }
    {
        next_head(graph.arcs, v, self.settled, from, graph.n)
    }

    // Is the label of v less than the least so far?
    fn nearer(&self, v: usize, least: Option<usize>) -> bool
        requires costs { v < length self.now.costs.now }
        requires steps { v < length self.now.steps.now }
        requires below { IfSome least (λ m. m ≤ v) }
        ensures { MatchOption least (result ≡ true) (λ m. result ≡ not (no_worse (at self.now.costs.now m) (at self.now.steps.now m) (at self.now.costs.now v) (at self.now.steps.now v))) }
    {
        match least {
            // No comparison of pairs: that loads the steps each time, and takes a run of 600 offers over a second.
            Some(m) => {
                self.costs[v] < self.costs[m]
                    || (self.costs[v] == self.costs[m] && self.steps[v] < self.steps[m])
            }
            None => true,
        }
    }

    // The element below n with the least label of those that are reached and not settled.
    fn nearest(&self, n: usize) -> Option<usize>
        requires fit { LabelsFit n self.now }
        requires few { n ≤ 600 }
        ensures { MatchOption result ((v : ℕ) → v < n → outside (marked self.now.reached.now) (marked self.now.settled.now) v ≡ false) (λ m. Least n (outside (marked self.now.reached.now) (marked self.now.settled.now)) (at self.now.costs.now) (at self.now.steps.now) m) }
    {
        // A loop, since of a chain of `filter` and `min_by_key` it is not proved that it gives a least label.
        let mut least = None;
        for v in Members::open(self.reached, self.settled, n) {
            if self.nearer(v, least) {
                least = Some(v);
            }
        }
        least
    }

    // The first labels of n elements: the sources, at no cost and by one step. Nothing is settled.
    fn begin(&mut self, n: usize, sources: &[u32])
        requires fit { LabelsFit n self.old }
        requires whole { row_words n ≤ length sources.now }
        ensures rows { (x : ℕ) → x < n → (marked self.new.reached.now x ≡ marked sources.now x) × (marked self.new.settled.now x ≡ false) }
        ensures numbers { (x : ℕ) → x < n → (at self.new.costs.now x ≡ 0) × (at self.new.steps.now x ≡ 1) }
        ensures memory { SameMemory self.old self.new }
    {
        copy(sources, 0, self.reached, 0, n.div_ceil(32));
        clear(self.settled, 0, n.div_ceil(32));
        fill_front(self.costs, n, 0);
        fill_front(self.steps, n, 1);
    }

    // Labels all elements that can be reached from the sources: what the way there costs, its steps and the element before.
    // What `settled` holds after is free.
    pub fn spread(&mut self, graph: &Graph, sources: &[u32])
        requires fit { LabelsFit graph.now.n self.old }
        requires whole { row_words graph.now.n ≤ length sources.now }
        requires begins { (x : ℕ) → x < graph.now.n → marked sources.now x ≡ true → at graph.now.prices.potentials.now x ≡ 0 }
        ensures cheapest { Cheapest graph.now.n (arcs_of graph.now) (costs_of graph.now) (marked sources.now) (marked self.new.reached.now) (at self.new.costs.now) (at self.new.steps.now) (at self.new.back.now) }
        ensures small { SmallLabels graph.now.n (at graph.now.prices.weights.now) (at graph.now.prices.potentials.now) (marked self.new.reached.now) (at self.new.costs.now) (at self.new.steps.now) graph.now.n }
        ensures memory { SameMemory self.old self.new }
    {
        self.begin(graph.n, sources);
        while let Some(v) = self.nearest(graph.n) {
            put(self.settled, v, true);
            self.relax(graph, v);
        }
    }

    // What the path that ends in x loses.
    pub fn loss(&self, prices: &Prices, x: usize) -> u32
        requires weights { x < length prices.now.weights.now }
        requires potentials { x < length prices.now.potentials.now }
        requires costs { x < length self.now.costs.now }
        requires light { at prices.now.weights.now x ≤ top }
        requires small { at self.now.costs.now x + at prices.now.potentials.now x ≤ 602 * top }
        ensures { result ≡ lost (at prices.now.weights.now) (at prices.now.potentials.now) (at self.now.costs.now) x }
    {
        ends::loss(prices, self.costs, x)
    }

    // The reached sink below n at which the path loses least, and of these the one of fewest steps.
    pub fn best_end(&self, n: usize, prices: &Prices, sinks: &[u32]) -> Option<usize>
        requires few { n ≤ 600 }
        requires whole { row_words n ≤ length sinks.now }
        requires reached { row_words n ≤ length self.now.reached.now }
        requires costs { n ≤ length self.now.costs.now }
        requires steps { n ≤ length self.now.steps.now }
        requires weights { n ≤ length prices.now.weights.now }
        requires potentials { n ≤ length prices.now.potentials.now }
        requires light { (x : ℕ) → x < n → at prices.now.weights.now x ≤ top }
        requires small { SmallLabels n (at prices.now.weights.now) (at prices.now.potentials.now) (marked self.now.reached.now) (at self.now.costs.now) (at self.now.steps.now) n }
        ensures { MatchOption result ((x : ℕ) → x < n → both (marked sinks.now) (marked self.now.reached.now) x ≡ false) (λ t. Least n (both (marked sinks.now) (marked self.now.reached.now)) (lost (at prices.now.weights.now) (at prices.now.potentials.now) (at self.now.costs.now)) (at self.now.steps.now) t) }
    {
        ends::best_end(n, prices, sinks, self.reached, self.costs, self.steps)
    }

    // Changes the side of each element of the path that ends in `end`.
    pub fn toggle(&self, set: &mut [u32], end: usize)
        requires steps { end < length self.now.steps.now }
        requires within { (j : ℕ) → j < at self.now.steps.now end → (behind (at self.now.back.now) end j < length self.now.back.now) × (behind (at self.now.back.now) end j < 32 * length set.old) }
        ensures { (x : ℕ) → marked set.new x ≡ toggled (marked set.old) (at self.now.back.now) end (at self.now.steps.now end) x }
    {
        ends::toggle_path(set, self.back, end, self.steps[end]);
    }
}

impl Graph<'_, '_> {
    // What a label at u costs by way of v, whose own label has cost `paid`. `inside` says on which side v is.
    #[tactic(auto, unfolding(crate::specs::Graph::cost))]
    fn arrival(&self, inside: bool, paid: u32, v: usize, u: usize) -> u32
        requires tail { v < self.now.n }
        requires head { u < self.now.n }
        requires arc { arcs_of self.now v u ≡ true }
        requires side { inside ≡ marked self.now.set.now v }
        requires small { paid + at self.now.prices.potentials.now v ≤ 603 * top }
        ensures { result ≡ paid + costs_of self.now v u }
    {
        let Prices {
            weights,
            potentials,
        } = self.prices;
        if inside {
            paid + potentials[v] - potentials[u]
        } else {
            paid + potentials[v] + weights[u] - (weights[v] + potentials[u])
        }
    }
}

// The work of one round: a best augmenting path, or the dual set where there is none.
ghost use Rattle.std.specs.Prelude.{◌≡◌, ℕ, ◌+◌, ◌-◌, ◌*◌, ◌<◌, ◌≤◌, true, false, length, MatchOption};
ghost use Rattle.exchange.specs.Graph.{at, Tables, SmallLabels};
ghost use Rattle.exchange.specs.Memory.{TablesFit, SpaceFits, SameSpace, space_words};
ghost use Rattle.exchange.specs.Labelling.{LabelsFit, SameMemory};
ghost use Rattle.exchange.specs.Predecessors.{Predecessors};
ghost use Rattle.exchange.specs.Round.{top, State, Labels, End, Closed, behind};
ghost use Rattle.matroid.specs.Optimal.{Dual};
ghost use Rattle.matroid.specs.TwoRules.{by_first, by_second, BothWell, BothKept};
ghost use Rattle.sets.specs.Bits.{marked, row_words};
ghost use Rattle.sets.specs.Matroid.{size, with};

use crate::graph::{Graph, Prices};
use crate::labelling::Labelling;
use crate::tables::ExchangeTables;
use matroid::{Offers, States, kept_length};

// Labels what can be reached by the tables, and finds the end of a best path; or, where no sink is reached, the dual set.
fn search<'g>(
    offers: &Offers,
    prices: &Prices<'g>,
    set: &'g [u32],
    tables: &ExchangeTables,
    labels: &mut Labelling,
    dual: &mut [u32],
) -> Option<usize>
    requires whole { row_words offers.now.problem.n ≤ length set.now }
    requires tables_fit { TablesFit offers.now.problem.n tables.now }
    requires labels_fit { LabelsFit offers.now.problem.n labels.old }
    requires room { row_words offers.now.problem.n ≤ length dual.old }
    requires numbers { (offers.now.problem.n ≤ length prices.now.weights.now) × (offers.now.problem.n ≤ length prices.now.potentials.now) }
    requires well { BothWell offers.now.file.now offers.now.problem }
    requires light { (x : ℕ) → x < offers.now.problem.n → at prices.now.weights.now x ≤ top }
    requires state { (loss : ℕ) × State offers.now.problem.n (by_first offers.now.file.now offers.now.problem) (by_second offers.now.file.now offers.now.problem) (at prices.now.weights.now) (at prices.now.potentials.now) loss (marked set.now) × (loss ≤ 601 * top) }
    requires tables { Tables offers.now.problem.n (by_first offers.now.file.now offers.now.problem) (by_second offers.now.file.now offers.now.problem) (marked set.now) tables.now.arcs.now tables.now.sources.now tables.now.sinks.now }
    ensures labels_fit { LabelsFit offers.now.problem.n labels.new }
    ensures memory { SameMemory labels.old labels.new }
    ensures labels { Labels offers.now.problem.n (by_first offers.now.file.now offers.now.problem) (by_second offers.now.file.now offers.now.problem) (at prices.now.weights.now) (at prices.now.potentials.now) (marked set.now) (marked labels.new.reached.now) (at labels.new.costs.now) (at labels.new.steps.now) (at labels.new.back.now) }
    ensures small { SmallLabels offers.now.problem.n (at prices.now.weights.now) (at prices.now.potentials.now) (marked labels.new.reached.now) (at labels.new.costs.now) (at labels.new.steps.now) offers.now.problem.n }
    ensures ends { MatchOption result (Closed offers.now.problem.n (by_first offers.now.file.now offers.now.problem) (by_second offers.now.file.now offers.now.problem) (marked set.now) (marked dual.new)) (λ t. End offers.now.problem.n (by_second offers.now.file.now offers.now.problem) (at prices.now.weights.now) (at prices.now.potentials.now) (marked set.now) (marked labels.new.reached.now) (at labels.new.costs.now) (at labels.new.steps.now) t) }
    ensures within { MatchOption result ((x : ℕ) → x < offers.now.problem.n → marked set.now x ≡ false → by_second offers.now.file.now offers.now.problem (with (marked set.now) x) ≡ true → marked labels.new.reached.now x ≡ false) (λ t. (j : ℕ) → j < at labels.new.steps.now t → behind (at labels.new.back.now) t j < offers.now.problem.n) }
    ensures best { MatchOption result (Dual offers.now.problem.n (by_first offers.now.file.now offers.now.problem) (by_second offers.now.file.now offers.now.problem) (marked set.now) (marked dual.new)) (λ t. (m : ℕ) × Predecessors offers.now.problem.n (by_first offers.now.file.now offers.now.problem) (by_second offers.now.file.now offers.now.problem) (at prices.now.weights.now) (at prices.now.potentials.now) (marked set.now) (at labels.new.costs.now) (at labels.new.steps.now) (at labels.new.back.now) t m) }
{
    let n = offers.problem.n;
    let graph = Graph {
        n,
        arcs: tables.arcs,
        set,
        prices: *prices,
    };
    labels.spread(&graph, tables.sources);
    let end = labels.best_end(n, prices, tables.sinks);
    if end.is_none() {
        tables.dual_set(n, dual);
    }
    end
}

// How many exchanges a round has asked, and where its best path ends.
#[derive(Clone, Copy)]
pub struct Outcome {
    pub asked: u64,
    pub end: Option<usize>,
}

// The lent memory of a round: what is kept by both rules, the exchange tables, the labels, and a row for the dual set.
#[derive(Drop)]
pub struct Workspace<'a> {
    pub states: States<'a>,
    pub tables: ExchangeTables<'a>,
    pub labels: Labelling<'a>,
    pub dual: &'a mut [u32],
}

impl<'a> Workspace<'a> {
    // Shares lent words out for n offers.
    pub fn share(n: usize, words: &'a mut [u32]) -> Workspace<'a>
        requires few { n ≤ 600 }
        requires room { space_words n ≤ length words.old }
        ensures { SpaceFits n result }
    {
        let row = n.div_ceil(32);
        let (costs, words) = words.split_at_mut(n);
        let (steps, words) = words.split_at_mut(n);
        let (back, words) = words.split_at_mut(n);
        let (sources, words) = words.split_at_mut(row);
        let (sinks, words) = words.split_at_mut(row);
        let (settled, words) = words.split_at_mut(row);
        let (reached, words) = words.split_at_mut(row);
        let (dual, words) = words.split_at_mut(row);
        let (arcs, words) = words.split_at_mut(row * n);
        let (first, second) = words.split_at_mut(kept_length(n));
        Workspace {
            states: States { first, second },
            tables: ExchangeTables {
                arcs,
                sources,
                sinks,
            },
            labels: Labelling {
                reached,
                settled,
                costs,
                steps,
                back,
            },
            dual,
        }
    }

    // Finds the end of a best augmenting path with the labels that lead back from it, or, where no sink is reached, the dual set,
    // which shows that the set is a largest one.
    // The tables are those of the set after. What `labels.settled` holds after is free, and so is `dual` where there is a path.
    pub fn find_path<'g>(&mut self, offers: &Offers, prices: &Prices<'g>, set: &'g [u32]) -> Outcome
        requires room { SpaceFits offers.now.problem.n self.old }
        requires whole { row_words offers.now.problem.n ≤ length set.now }
        requires numbers { (offers.now.problem.n ≤ length prices.now.weights.now) × (offers.now.problem.n ≤ length prices.now.potentials.now) }
        requires well { BothWell offers.now.file.now offers.now.problem }
        requires light { (x : ℕ) → x < offers.now.problem.n → at prices.now.weights.now x ≤ top }
        requires state { (loss : ℕ) × State offers.now.problem.n (by_first offers.now.file.now offers.now.problem) (by_second offers.now.file.now offers.now.problem) (at prices.now.weights.now) (at prices.now.potentials.now) loss (marked set.now) × (loss ≤ 601 * top) }
        ensures room { SpaceFits offers.now.problem.n self.new }
        ensures memory { SameSpace self.old self.new }
        ensures asked { result.asked ≡ 2 * size offers.now.problem.n (marked set.now) * (offers.now.problem.n - size offers.now.problem.n (marked set.now)) }
        ensures tables { Tables offers.now.problem.n (by_first offers.now.file.now offers.now.problem) (by_second offers.now.file.now offers.now.problem) (marked set.now) self.new.tables.arcs.now self.new.tables.sources.now self.new.tables.sinks.now }
        ensures labels { Labels offers.now.problem.n (by_first offers.now.file.now offers.now.problem) (by_second offers.now.file.now offers.now.problem) (at prices.now.weights.now) (at prices.now.potentials.now) (marked set.now) (marked self.new.labels.reached.now) (at self.new.labels.costs.now) (at self.new.labels.steps.now) (at self.new.labels.back.now) }
        ensures small { SmallLabels offers.now.problem.n (at prices.now.weights.now) (at prices.now.potentials.now) (marked self.new.labels.reached.now) (at self.new.labels.costs.now) (at self.new.labels.steps.now) offers.now.problem.n }
        ensures ends { MatchOption result.end (Closed offers.now.problem.n (by_first offers.now.file.now offers.now.problem) (by_second offers.now.file.now offers.now.problem) (marked set.now) (marked self.new.dual.now)) (λ t. End offers.now.problem.n (by_second offers.now.file.now offers.now.problem) (at prices.now.weights.now) (at prices.now.potentials.now) (marked set.now) (marked self.new.labels.reached.now) (at self.new.labels.costs.now) (at self.new.labels.steps.now) t) }
        ensures within { MatchOption result.end ((x : ℕ) → x < offers.now.problem.n → marked set.now x ≡ false → by_second offers.now.file.now offers.now.problem (with (marked set.now) x) ≡ true → marked self.new.labels.reached.now x ≡ false) (λ t. (j : ℕ) → j < at self.new.labels.steps.now t → behind (at self.new.labels.back.now) t j < offers.now.problem.n) }
        ensures best { MatchOption result.end (Dual offers.now.problem.n (by_first offers.now.file.now offers.now.problem) (by_second offers.now.file.now offers.now.problem) (marked set.now) (marked self.new.dual.now)) (λ t. (m : ℕ) × Predecessors offers.now.problem.n (by_first offers.now.file.now offers.now.problem) (by_second offers.now.file.now offers.now.problem) (at prices.now.weights.now) (at prices.now.potentials.now) (marked set.now) (at self.new.labels.costs.now) (at self.new.labels.steps.now) (at self.new.labels.back.now) t m) }
        ensures kept { BothKept offers.now.file.now offers.now.problem (marked set.now) (marked set.now) self.new.states.first.now self.new.states.second.now }
    {
        let asked = self.tables.fill(offers, set, &mut self.states);
        let end = search(
            offers,
            prices,
            set,
            &self.tables,
            &mut self.labels,
            self.dual,
        );
        Outcome { asked, end }
    }
}

// The exchange graph of a set in lent words, with what its arcs cost.
ghost use Rattle.std.specs.Prelude.{◌*◌, ◌≤◌, length};
ghost use Rattle.exchange.specs.Graph.{at, table, Priced};
ghost use Rattle.sets.specs.Bits.{marked, row_words};

// What a change of the set loses: the weights and the potentials.
#[derive(Clone, Copy)]
pub struct Prices<'a> {
    pub weights: &'a [u32],
    pub potentials: &'a [u32],
}

// The exchange graph of a set among n elements, with what its arcs cost.
#[derive(Clone, Copy)]
pub struct Graph<'t, 'a> {
    pub n: usize,
    pub arcs: &'t [u32],
    pub set: &'a [u32],
    pub prices: Prices<'a>,
    ghost few: { n ≤ 600 },
    ghost all_arcs: { row_words n * n ≤ length arcs.now },
    ghost whole_set: { row_words n ≤ length set.now },
    ghost all_weights: { n ≤ length prices.weights.now },
    ghost all_potentials: { n ≤ length prices.potentials.now },
    ghost priced: { Priced n (table n arcs.now) (marked set.now) (at prices.weights.now) (at prices.potentials.now) },
}

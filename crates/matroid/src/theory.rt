// What is proved of every matroid, and of every two matroids over the same elements. Each function's contract names its theorem.
ghost use Rattle.matroid.specs.Exchanges.{Extension, Exchange, AsGoodAsBest, BestOfOneMore, Carry, ManyExchanges, ManyExchangesAndOne, ManyExchangesByKeys, ManyExchangesByKeysAndOne, TightExchanges, TightExchangesAndOne};
ghost use Rattle.matroid.specs.Gains.{GainsByOne, GainsNeverRise, GainsNeverRiseSigned};
ghost use Rattle.matroid.specs.Optimal.{HeaviestByOne, Largest, Heaviest, HeaviestSigned, ExchangesSuffice};

// An allowed set can be filled up from another that is no smaller.
pub fn sets_can_be_filled_up() -> u8
    ensures { Extension }
{
    0
}

// An element that can be added to a smaller part of a set can come for an element outside that part.
pub fn added_elements_can_be_exchanged() -> u8
    ensures { Exchange }
{
    0
}

// One matroid: best by exchanges is heaviest of its size.
pub fn best_by_exchanges_is_heaviest() -> u8
    ensures { HeaviestByOne }
{
    0
}

// A set of the same size that weighs as much as a best one is a best one too.
pub fn as_heavy_as_best_is_best() -> u8
    ensures { AsGoodAsBest }
{
    0
}

// A best set with a heaviest of the elements that can be added is a best one.
pub fn best_sets_grow_by_the_heaviest() -> u8
    ensures { BestOfOneMore }
{
    0
}

// An exchange that frees the way for one element leaves the way for another free.
pub fn exchanges_carry() -> u8
    ensures { Carry }
{
    0
}

// Many exchanges at once, where no earlier element could go for a later one to come.
pub fn many_exchanges_at_once() -> u8
    ensures { ManyExchanges }
{
    0
}

// The same after an element is added.
pub fn many_exchanges_and_one_more() -> u8
    ensures { ManyExchangesAndOne }
{
    0
}

// Many exchanges at once, where exchanges between different pairs fall by keys.
pub fn many_exchanges_by_keys() -> u8
    ensures { ManyExchangesByKeys }
{
    0
}

// The same after an element is added.
pub fn many_exchanges_by_keys_and_one_more() -> u8
    ensures { ManyExchangesByKeysAndOne }
{
    0
}

// Exchanges of equal potentials along a path leave a best set.
pub fn tight_exchanges() -> u8
    ensures { TightExchanges }
{
    0
}

// The same after one of the heaviest elements that can be added is added.
pub fn tight_exchanges_and_one_more() -> u8
    ensures { TightExchangesAndOne }
{
    0
}

// Two matroids: a set with a dual set is a largest one that both allow.
pub fn dual_sets_show_largest() -> u8
    ensures { Largest }
{
    0
}

// Two matroids: a set with a weight splitting is a heaviest one of its size.
pub fn splittings_show_heaviest() -> u8
    ensures { Heaviest }
{
    0
}

// The same for numbers of either sign that add up to the weights.
pub fn signed_splittings_show_heaviest() -> u8
    ensures { HeaviestSigned }
{
    0
}

// The numbers need to be compared over exchanges only.
pub fn exchanges_suffice() -> u8
    ensures { ExchangesSuffice }
{
    0
}

// One matroid: from size to size no more is gained than before.
pub fn gains_by_one_never_rise() -> u8
    ensures { GainsByOne }
{
    0
}

// Two matroids: from size to size no more is gained than before.
pub fn gains_never_rise() -> u8
    ensures { GainsNeverRise }
{
    0
}

// The same for numbers of either sign that add up to the weights.
pub fn signed_gains_never_rise() -> u8
    ensures { GainsNeverRiseSigned }
{
    0
}

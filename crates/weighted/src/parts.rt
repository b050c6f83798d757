// Weights and potentials in lent words, and the parts of weights in lent numbers.
ghost use Rattle.std.specs.Prelude.{◌≡◌, ℕ, ◌+◌, ◌*◌, ◌^◌, ◌<◌, ◌≤◌, min, length, pos, ◌-ℤ◌, slice_index};
ghost use Rattle.exchange.specs.Graph.{at};
ghost use Rattle.matroid.specs.Problem.{weight_of};
ghost use Rattle.sets.specs.Bits.{marked, row_words, row_bytes, SameBut};
ghost use Rattle.weighted.specs.Choice.{largest_set, dual_set, sized_set, first_part, second_part};
ghost use Rattle.weighted.specs.Next.{raised};
ghost use Rattle.sets.specs.Matroid.{pick};
ghost use Rattle.std.specs.Int.{w64, cast_signed};

use exchange::labelling::Labelling;
use matroid::Offers;
use sets::bits::contains;
use sets::words::store_row;

// Copies the weights of a file's n offers into the lent words.
pub fn load_weights(offers: &Offers, weights: &mut [u32])
    requires there { 2 + 4 * offers.now.problem.n ≤ length offers.now.file.now }
    requires room { offers.now.problem.n ≤ length weights.old }
    ensures { (x : ℕ) → x < offers.now.problem.n → slice_index weights.new x ≡ weight_of offers.now.file.now x }
{
    for x in 0..offers.problem.n {
        weights[x] = offers.weight(x);
    }
}

// By how much the potential of an element rises: by its cost, or by all where that is less or where it has no label.
fn rise_of(labelled: bool, cost: u32, all: u32) -> u32
    ensures { result ≡ pick labelled (min cost all) all }
{
    if labelled && cost < all { cost } else { all }
}

// Raises the n potentials after a round whose loss rose by `all`.
pub fn raise(n: usize, labels: &Labelling, all: u32, potentials: &mut [u32])
    requires labels { (n ≤ 32 * length labels.now.reached.now) × (n ≤ length labels.now.costs.now) }
    requires room { n ≤ length potentials.old }
    requires small { (x : ℕ) → x < n → slice_index potentials.old x + all < 2 ^ 32 }
    ensures { (x : ℕ) → x < n → slice_index potentials.new x ≡ raised (marked labels.now.reached.now) (at potentials.old) (at labels.now.costs.now) all x }
{
    for x in 0..n {
        potentials[x] += rise_of(contains(labels.reached, 0, x), labels.costs[x], all);
    }
}

// What is left of a weight for its second part, signed, in the 64 bits of two's complement.
fn rest_of(weight: u32, first: u32) -> u64
    ensures { cast_signed w64 result ≡ pos weight -ℤ pos first }
{
    (weight as i64 - first as i64).cast_unsigned()
}

// Writes the two parts of each of n weights, for the size j + 1: the potential, and what is left.
pub fn write_parts(n: usize, weights: &[u32], potentials: &[u32], j: usize, numbers: &mut [u64])
    requires lengths { (n ≤ length weights.now) × (n ≤ length potentials.now) × (2 * ((j + 1) * n) ≤ length numbers.old) }
    ensures first { (x : ℕ) → x < n → first_part n numbers.new j x ≡ pos (at potentials.now x) }
    ensures second { (x : ℕ) → x < n → second_part n numbers.new j x ≡ pos (at weights.now x) -ℤ pos (at potentials.now x) }
    ensures rest { SameBut (2 * (j * n)) (2 * n) numbers.old numbers.new }
{
    for x in 0..n {
        let place = 2 * (j * n + x);
        numbers[place] = potentials[x] as u64;
        numbers[place + 1] = rest_of(weights[x], potentials[x]);
    }
}

// Writes what the round left for the size j + 1: its set, and the two parts of each weight.
pub fn write_size(
    n: usize,
    weights: &[u32],
    potentials: &[u32],
    set: &[u32],
    j: usize,
    sets: &mut [u8],
    numbers: &mut [u64],
)
    requires small { (n ≤ 600) × (j < n) }
    requires lengths { (n ≤ length weights.now) × (n ≤ length potentials.now) × (row_words n ≤ length set.now) }
    requires room { ((j + 2) * row_bytes n + row_bytes n ≤ length sets.old) × (2 * ((j + 1) * n) ≤ length numbers.old) }
    ensures members { (x : ℕ) → x < n → sized_set n sets.new j x ≡ marked set.now x }
    ensures others { SameBut ((j + 2) * row_bytes n) (row_bytes n) sets.old sets.new }
    ensures first { (x : ℕ) → x < n → first_part n numbers.new j x ≡ pos (at potentials.now x) }
    ensures second { (x : ℕ) → x < n → second_part n numbers.new j x ≡ pos (at weights.now x) -ℤ pos (at potentials.now x) }
    ensures rest { SameBut (2 * (j * n)) (2 * n) numbers.old numbers.new }
{
    store_row(set, 0, n, sets, (j + 2) * ((n + 7) / 8));
    write_parts(n, weights, potentials, j, numbers);
}

// Writes the largest set and its dual set.
pub fn write_largest(n: usize, set: &[u32], dual: &[u32], sets: &mut [u8])
    requires few { n ≤ 600 }
    requires lengths { (row_words n ≤ length set.now) × (row_words n ≤ length dual.now) }
    requires room { 2 * row_bytes n ≤ length sets.old }
    ensures largest { (x : ℕ) → x < n → largest_set sets.new x ≡ marked set.now x }
    ensures duals { (x : ℕ) → x < n → dual_set n sets.new x ≡ marked dual.now x }
    ensures others { SameBut 0 (2 * row_bytes n) sets.old sets.new }
{
    store_row(set, 0, n, sets, 0);
    store_row(dual, 0, n, sets, (n + 7) / 8);
}

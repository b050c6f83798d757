// The theorems on rounds used at two small matroids on three elements. Each function's contract names what is shown there.
ghost use Rattle.weighted.specs.Examples.{SmallRound, SmallState, SmallExistence, SmallConverses};

// A round at the two small matroids.
pub fn small_round() -> u8
    ensures { SmallRound }
{
    0
}

// A state at the two small matroids, the splitting that it holds and the heaviest choice that it shows.
pub fn small_state() -> u8
    ensures { SmallState }
{
    0
}

// Labels, states, dual sets and gains at the two small matroids.
pub fn small_existence() -> u8
    ensures { SmallExistence }
{
    0
}

// A splitting, a set of one element more and a largest choice at the two small matroids.
pub fn small_converses() -> u8
    ensures { SmallConverses }
{
    0
}

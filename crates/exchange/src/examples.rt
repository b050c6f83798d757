// The theorems on paths used at two small matroids on three elements. Each function's contract names what is shown there.
ghost use Rattle.exchange.specs.Examples.{SmallLabelled, SmallPath, SmallDual, FewestNeeded, SplittingNeeded};

// A state, complete labels and their end at the two small matroids, and the path that they give.
pub fn small_labels() -> u8
    ensures { SmallLabelled }
{
    0
}

// A best path at the two small matroids, and the set that it leads to.
pub fn small_path() -> u8
    ensures { SmallPath }
{
    0
}

// A choice of the two small matroids with no path, and the dual set that it has.
pub fn small_dual() -> u8
    ensures { SmallDual }
{
    0
}

// Of most weight alone is not enough: a path with more steps than needed can lead to a refused set.
pub fn fewest_steps_are_needed() -> u8
    ensures { FewestNeeded }
{
    0
}

// From a set with no weight splitting a best path can lead to a refused set.
pub fn splittings_are_needed() -> u8
    ensures { SplittingNeeded }
{
    0
}

// What is proved of every closure.
ghost use Rattle.sets.specs.Closure.{ClosureMatroid};

// The sets in which no element depends on the others are a matroid, for every closure.
pub fn closures_are_matroids() -> u8
    ensures { ClosureMatroid }
{
    0
}

// The theorems used at small matroids on three and four elements. Each function's contract names what is shown there.
ghost use Rattle.matroid.specs.Examples.{SmallMatroids, SmallSteps, SmallPairs, SmallExchange, SmallLargest, SmallHeaviest, SmallSigned, SmallGains, SmallClosure};

// Two small rules are matroids.
pub fn small_matroids() -> u8
    ensures { SmallMatroids }
{
    0
}

// The theorems on one exchange at one small matroid.
pub fn small_steps() -> u8
    ensures { SmallSteps }
{
    0
}

// Two exchanges at once that have to be taken in order.
pub fn small_pairs() -> u8
    ensures { SmallPairs }
{
    0
}

// An exchange after an element is added, and what it makes.
pub fn small_exchange() -> u8
    ensures { SmallExchange }
{
    0
}

// A dual set at the two small matroids, and that it shows a largest choice.
pub fn small_largest() -> u8
    ensures { SmallLargest }
{
    0
}

// A splitting at the two small matroids, and that it shows a heaviest choice of one element.
pub fn small_heaviest() -> u8
    ensures { SmallHeaviest }
{
    0
}

// Numbers of either sign, and that they show a heaviest choice of two elements.
pub fn small_signed() -> u8
    ensures { SmallSigned }
{
    0
}

// The gains at the two small matroids.
pub fn small_gains() -> u8
    ensures { SmallGains }
{
    0
}

// A small closure and its matroid.
pub fn small_closure() -> u8
    ensures { SmallClosure }
{
    0
}

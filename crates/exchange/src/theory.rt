// What is proved of augmenting paths between any two matroids over the same elements. Each function's contract names its theorem.
ghost use Rattle.exchange.specs.Paths.{BestAugments, BestOfAll, DualByClosed, LeadingExists, LeadingAgrees, DualByNoPath};
ghost use Rattle.exchange.specs.Predecessors.{LabelsBest};

// Where a set has a weight splitting, any best path repeats no element and leads to a set that both matroids allow,
// of one element more, with the weight that the path says.
pub fn best_paths_augment() -> u8
    ensures { BestAugments }
{
    0
}

// A path that is best among those that repeat no element is best among all.
pub fn best_paths_are_best_of_all() -> u8
    ensures { BestOfAll }
{
    0
}

// Complete labels give a best path, by the predecessors of the end that they choose.
pub fn labels_give_a_best_path() -> u8
    ensures { LabelsBest }
{
    0
}

// A set that is closed backwards from the sinks and has no source in it is a dual set.
pub fn closed_sets_are_dual() -> u8
    ensures { DualByClosed }
{
    0
}

// The elements that lead to a sink can always be told.
pub fn leading_elements_can_be_told() -> u8
    ensures { LeadingExists }
{
    0
}

// Where there is no augmenting path, the elements that lead to a sink form a dual set.
pub fn no_path_gives_a_dual_set() -> u8
    ensures { DualByNoPath }
{
    0
}

// The least set that holds the sinks and, with the head of an arc, its tail is the set of the elements that lead to a sink.
pub fn closing_backwards_finds_what_leads() -> u8
    ensures { LeadingAgrees }
{
    0
}

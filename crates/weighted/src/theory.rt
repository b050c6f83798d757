// What is proved of a round for any two matroids over the same elements. Each function's contract names its theorem.
ghost use Rattle.weighted.specs.Converses.{HeaviestSplits, PathsAugment, NoPathLargest};
ghost use Rattle.weighted.specs.Next.{Round};
ghost use Rattle.weighted.specs.Steps.{StateSplits, StateHeaviest, BestNext, LabelsExist, NextOrDual, StatesExist, DualExists, HeaviestGainsNeverRise};

// From a state, complete labels and the end that they choose to the next state: the changed set has one element more
// and the gained weight, both matroids allow it, the raised potentials are its own, and the loss does not fall.
pub fn rounds_lead_to_the_next_state() -> u8
    ensures { Round }
{
    0
}

// A state's potentials split the weights in two parts by which its set is best.
pub fn states_split_the_weights() -> u8
    ensures { StateSplits }
{
    0
}

// A state's set is a heaviest one of its size.
pub fn states_are_heaviest() -> u8
    ensures { StateHeaviest }
{
    0
}

// Whichever best path is taken, the raised potentials are those of the set that it leads to.
pub fn any_best_path_leads_on() -> u8
    ensures { BestNext }
{
    0
}

// Every state has complete labels.
pub fn labels_exist() -> u8
    ensures { LabelsExist }
{
    0
}

// A state has a next one, of one element more, or its set has a dual set.
pub fn states_lead_on_or_have_a_dual_set() -> u8
    ensures { NextOrDual }
{
    0
}

// There is a state of every size up to the largest, so a heaviest set of each size has a weight splitting.
pub fn states_exist() -> u8
    ensures { StatesExist }
{
    0
}

// Any two matroids have a set that both allow with a dual set.
pub fn dual_sets_exist() -> u8
    ensures { DualExists }
{
    0
}

// From one size to the next a heaviest set gains no more than from the size before.
pub fn gains_of_heaviest_sets_never_rise() -> u8
    ensures { HeaviestGainsNeverRise }
{
    0
}

// A heaviest set of its size has a weight splitting.
pub fn heaviest_sets_have_splittings() -> u8
    ensures { HeaviestSplits }
{
    0
}

// Where there is an augmenting path, both matroids allow some set of one element more.
pub fn paths_augment() -> u8
    ensures { PathsAugment }
{
    0
}

// Where there is none, the set is a largest one.
pub fn sets_without_paths_are_largest() -> u8
    ensures { NoPathLargest }
{
    0
}

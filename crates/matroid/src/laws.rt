// What is proved of rules and of files of offers. Each function's contract names its theorem.
ghost use Rattle.matroid.specs.Rules.{RulesMatroid, RulesNatural};
ghost use Rattle.matroid.specs.Reading.{ReadsMeaning, RefusesFirst, Faultless, MeansWell};

// Every well-formed rule is a matroid.
pub fn rules_are_matroids() -> u8
    ensures { RulesMatroid }
{
    0
}

// A rule allows what its kind allows in its own words.
pub fn rules_allow_what_they_say() -> u8
    ensures { RulesNatural }
{
    0
}

// A file is read exactly if it means a problem, and as that problem.
pub fn reading_gives_the_meaning() -> u8
    ensures { ReadsMeaning }
{
    0
}

// A refusal is the first of all faults of the file.
pub fn a_refusal_is_the_first_fault() -> u8
    ensures { RefusesFirst }
{
    0
}

// A file that means a problem has no fault.
pub fn a_meaning_leaves_no_fault() -> u8
    ensures { Faultless }
{
    0
}

// Both rules of a file that means a problem are well formed.
pub fn a_meaning_has_good_rules() -> u8
    ensures { MeansWell }
{
    0
}

// What is proved of every rule of links.
ghost use Rattle.graphic.specs.Links.{JoinedLeast, LinksMatroid, NoRing, ReadsWell, RefusesFirst};

// To be joined is the least equivalence that the links of a set make.
pub fn joined_is_least() -> u8
    ensures { JoinedLeast }
{
    0
}

// Links are a matroid.
pub fn links_are_a_matroid() -> u8
    ensures { LinksMatroid }
{
    0
}

// A set is allowed exactly if there is no ring in it.
pub fn allowed_is_no_ring() -> u8
    ensures { NoRing }
{
    0
}

// A rule is read exactly if it stands in the file as it should.
pub fn reads_what_is_well() -> u8
    ensures { ReadsWell }
{
    0
}

// A refusal is the first of all faults.
pub fn refuses_the_first_fault() -> u8
    ensures { RefusesFirst }
{
    0
}

// What is proved of every rule of rows.
ghost use Rattle.linear.specs.Rows.{RowsMatroid, RowsNatural};
ghost use Rattle.linear.specs.Reading.{ReadsWell, RefusesFirst};

// The rule is a matroid.
pub fn rows_are_a_matroid() -> u8
    ensures { RowsMatroid }
{
    0
}

// A set is allowed just where the natural reading says so.
pub fn rows_read_naturally() -> u8
    ensures { RowsNatural }
{
    0
}

// A rule is read exactly if it stands in the file as it should.
pub fn reads_what_is_well() -> u8
    ensures { ReadsWell }
{
    0
}

// A refusal is the first of all faults.
pub fn refuses_the_first_fault() -> u8
    ensures { RefusesFirst }
{
    0
}

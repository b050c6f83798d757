// Rules of volunteers: each offer of an allowed set has a volunteer of its own who can look after it.
#![tactic(auto)]

mod matching;
mod parse;
mod reach;
mod rows;

ghost use Rattle.std.specs.Prelude.{◌≡◌, ◌+◌, ◌*◌, ◌<◌, ◌≤◌, true, false, length};
ghost use Rattle.sets.specs.Bits.{marked, row_words, row_bytes};
ghost use Rattle.sets.specs.Matroid.{with, without};
ghost use Rattle.transversal.specs.Reading.{ReadsWell, RefusesFirst};
ghost use Rattle.transversal.specs.Volunteers.{can_tend, allows, Well, Ready, kept_length, ReadingAgrees, VolunteersMatroid};

use matching::Matching;
pub use parse::read;
use rows::Rows;
use sets::bits;
use sets::bits::contains;

// A rule of volunteers as it lies in a file: the rows of bits of the volunteers stand from byte `at` on, one bit for each of the n offers.
#[derive(Clone, Copy)]
pub struct Volunteers<'a> {
    pub file: &'a [u8],
    pub n: usize,
    pub volunteers: usize,
    pub at: usize,
    ghost few: { n ≤ 600 },
    ghost well: { Well file.now n volunteers at },
}

impl Volunteers<'_> {
    // How many words a row of offers takes.
    fn width(&self) -> usize
        ensures { result ≡ row_words self.now.n }
    {
        self.n.div_ceil(32)
    }

    // The byte of the file at which the row of volunteer v begins.
    fn row_of(&self, v: usize) -> usize
        requires volunteer { v < self.now.volunteers }
        ensures begins { result ≡ self.now.at + v * row_bytes self.now.n }
        ensures within { result + row_bytes self.now.n ≤ length self.now.file.now }
    {
        self.at + v * self.n.div_ceil(8)
    }

    // Can volunteer v look after offer x?
    pub fn can_tend(&self, v: usize, x: usize) -> bool
        requires volunteer { v < self.now.volunteers }
        requires offer { x < self.now.n }
        ensures { result ≡ can_tend self.now.file.now self.now.n self.now.at v x }
    {
        bits::contains(self.file, self.row_of(v), x)
    }

    // Has each offer of the set a volunteer of its own? Then what is kept in `state` is right for the set; else `state` is free.
    // A bool and no Option, since what is kept lies in lent memory.
    pub fn independent(&self, set: &[u32], state: &mut [u32]) -> bool
        requires members { row_words self.now.n ≤ length set.now }
        requires memory { kept_length self.now.n ≤ length state.old }
        ensures answers { result ≡ allows self.now.file.now self.now.n self.now.volunteers self.now.at (marked set.now) }
        ensures kept { result ≡ true → Ready self.now.file.now self.now.n self.now.volunteers self.now.at (marked set.now) state.new }
    {
        self.load_rows(state);
        let rows = Rows {
            words: state,
            n: self.n,
            volunteers: self.volunteers,
        };
        let Some(matching) = Matching::of(&rows, set) else {
            return false;
        };
        self.start_rows(&matching, state);
        self.start_free(&matching, state);
        self.close_rows(set, state);
        true
    }

    // Is the set with x allowed?
    pub fn can_add(&self, set: &[u32], state: &[u32], x: usize) -> bool
        requires offer { x < self.now.n }
        requires outside { marked set.now x ≡ false }
        requires kept { Ready self.now.file.now self.now.n self.now.volunteers self.now.at (marked set.now) state.now }
        ensures { result ≡ allows self.now.file.now self.now.n self.now.volunteers self.now.at (with (marked set.now) x) }
    {
        let free_row = self.n * self.width();
        contains(state, free_row, x)
    }

    // Is the set with x in place of y allowed?
    pub fn can_exchange(&self, set: &[u32], state: &[u32], x: usize, y: usize) -> bool
        requires coming { x < self.now.n }
        requires outside { marked set.now x ≡ false }
        requires going { y < self.now.n }
        requires inside { marked set.now y ≡ true }
        requires kept { Ready self.now.file.now self.now.n self.now.volunteers self.now.at (marked set.now) state.now }
        ensures { result ≡ allows self.now.file.now self.now.n self.now.volunteers self.now.at (with (without (marked set.now) y) x) }
    {
        let width = self.width();
        contains(state, self.n * width, x) || contains(state, y * width, x)
    }
}

// A set is allowed just where each of its offers has a volunteer of its own.
pub fn allowed_has_volunteers() -> u8
    ensures { ReadingAgrees }
{
    0
}

// A well-formed rule of volunteers is a matroid.
pub fn volunteers_are_a_matroid() -> u8
    ensures { VolunteersMatroid }
{
    0
}

// A rule is read just where it is well formed.
pub fn reads_what_is_well() -> u8
    ensures { ReadsWell }
{
    0
}

// A refusal is the first of all faults.
pub fn refuses_the_first_fault() -> u8
    ensures { RefusesFirst }
{
    0
}

// A rule of rows as it lies in a file, and the three functions by which it is used.
ghost use Rattle.std.specs.Prelude.{◌≡◌, ℕ, ◌+◌, ◌*◌, ◌%◌, ◌<◌, ◌≤◌, true, false, length, slice_index};
ghost use Rattle.sets.specs.Matroid.{with, without};
ghost use Rattle.sets.specs.Bits.{marked, row_words};
ghost use Rattle.linear.specs.Rows.{allows, number, Well};
ghost use Rattle.linear.specs.Kept.{dot, functional, kept_length, Ready};

use crate::vectors::{Row, chosen};

// The rows of n offers: from byte `at` of the file on, `len` numbers below the prime for each.
#[derive(Clone, Copy)]
pub struct Rows<'a> {
    pub file: &'a [u8],
    pub n: usize,
    pub prime: u64,
    pub len: usize,
    pub at: usize,
    ghost few: { n ≤ 600 },
    ghost well: { Well file.now n prime len at },
}

impl Rows<'_> {
    // Is the set allowed? Where it is, the state is afterwards the kept state of this set; where it is not, the state is free.
    // A bool and no Option, since what is kept lies in lent memory.
    pub fn independent(&self, set: &[u32], state: &mut [u32]) -> bool
        requires members { row_words self.now.n ≤ length set.now }
        requires room { kept_length self.now.n ≤ length state.old }
        ensures answers { result ≡ allows self.now.file.now self.now.n self.now.prime self.now.len self.now.at (marked set.now) }
        ensures ready { result ≡ true → Ready self.now.file.now self.now.n self.now.prime self.now.len self.now.at (marked set.now) state.new }
    {
        for x in 0..self.n {
            if chosen(set, x) && !self.insert(set, state, x) {
                return false;
            }
        }
        self.note_spanned(set, state);
        true
    }

    // Is the set with x allowed, for x outside?
    pub fn can_add(&self, set: &[u32], state: &[u32], x: usize) -> bool
        requires ready { Ready self.now.file.now self.now.n self.now.prime self.now.len self.now.at (marked set.now) state.now }
        requires offer { x < self.now.n }
        requires outside { marked set.now x ≡ false }
        ensures { result ≡ allows self.now.file.now self.now.n self.now.prime self.now.len self.now.at (with (marked set.now) x) }
    {
        state[65 * x + 64] == 0
    }

    // Is the set with x in the place of y allowed, for x outside and y inside?
    pub fn can_exchange(&self, set: &[u32], state: &[u32], x: usize, y: usize) -> bool
        requires ready { Ready self.now.file.now self.now.n self.now.prime self.now.len self.now.at (marked set.now) state.now }
        requires offers { (x < self.now.n) × (y < self.now.n) }
        requires outside { marked set.now x ≡ false }
        requires inside { marked set.now y ≡ true }
        ensures { result ≡ allows self.now.file.now self.now.n self.now.prime self.now.len self.now.at (with (without (marked set.now) y) x) }
    {
        self.can_add(set, state, x) || self.value(state, y, x) != 0
    }

    // Number j of row i.
    pub fn number_at(&self, i: usize, j: usize) -> u8
        requires row { i < self.now.n }
        requires column { j < self.now.len }
        ensures { result ≡ number self.now.file.now self.now.len self.now.at i j }
    {
        self.file[self.at + i * self.len + j]
    }

    // The value of the functional of y at row x, modulo the prime.
    pub(crate) fn value(&self, state: &[u32], y: usize, x: usize) -> u64
        requires rows { (y < self.now.n) × (x < self.now.n) }
        requires room { kept_length self.now.n ≤ length state.now }
        ensures { result ≡ dot self.now.len (functional state.now y) (number self.now.file.now self.now.len self.now.at x) % self.now.prime }
    {
        let products = |j| state[65 * y + j] as u64 * self.number_at(x, j) as u64;
        (0..self.len).map(products).sum::<u64>() % self.prime
    }

    // Row i in words.
    pub(crate) fn load(&self, i: usize) -> Row
        requires row { i < self.now.n }
        ensures { (j : ℕ) → j < self.now.len → slice_index result j ≡ number self.now.file.now self.now.len self.now.at i j }
    {
        let mut row = [0; 64];
        for j in 0..self.len {
            row[j] = self.number_at(i, j) as u32;
        }
        row
    }
}

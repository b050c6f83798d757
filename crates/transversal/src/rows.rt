// The kept rows: those of the volunteers, and from which offers each offer, or a free volunteer, is come to.
//
// Each row takes as many words as n offers need. Row y below n belongs to offer y, row n to the free volunteers, row n + 1 + v to volunteer v.
ghost use Rattle.std.specs.Prelude.{◌≡◌, ℕ, ◌+◌, ◌*◌, ◌<◌, ◌≤◌, true, false, length, ◌≢◌, MatchOption, All, IfSome};
ghost use Rattle.sets.specs.Bits.{marked, word_row, row_words};
ghost use Rattle.transversal.specs.Volunteers.{can_tend, in_row, kept_length};
ghost use Rattle.transversal.specs.Pairs.{named, by_rows, Chain, start, start_free, through};

use crate::Volunteers;
use crate::matching::Matching;
use sets::bits::{clear, contains, copy_within};
use sets::words::{load_row, or_row};

// The kept rows, to be read.
#[derive(Clone, Copy)]
pub(crate) struct Rows<'s> {
    pub words: &'s [u32],
    pub n: usize,
    pub volunteers: usize,
    ghost few: { n ≤ 600 },
    ghost low: { volunteers ≤ 600 },
    ghost room: { kept_length n ≤ length words.now },
}

impl Rows<'_> {
    // The word at which the row of volunteer v begins.
    pub(crate) fn row_of(&self, v: usize) -> usize
        requires { v < self.now.volunteers }
        ensures begins { result ≡ (self.now.n + 1 + v) * row_words self.now.n }
        ensures within { result + row_words self.now.n ≤ length self.now.words.now }
    {
        (self.n + 1 + v) * self.n.div_ceil(32)
    }

    // Can volunteer v look after offer x?
    pub(crate) fn can_tend(&self, v: usize, x: usize) -> bool
        requires volunteer { v < self.now.volunteers }
        requires offer { x < self.now.n }
        ensures { result ≡ by_rows self.now.words.now self.now.n v x }
    {
        contains(self.words, self.row_of(v), x)
    }

    // The first offer that volunteer v can look after and `reached` has not.
    pub(crate) fn fresh(&self, v: usize, reached: &[u32]) -> Option<usize>
        requires volunteer { v < self.now.volunteers }
        requires room { row_words self.now.n ≤ length reached.now }
        ensures { MatchOption result ((y : ℕ) → y < self.now.n → by_rows self.now.words.now self.now.n v y ≡ true → word_row reached.now 0 y ≡ true) (λ y. (y < self.now.n) × (by_rows self.now.words.now self.now.n v y ≡ true) × (word_row reached.now 0 y ≡ false)) }
    {
        let row = self.row_of(v);
        for k in 0..self.n.div_ceil(32) {
            if let Some(y) = self.fresh_in(row, reached, k) {
                return Some(y);
            }
        }
        None
    }

    // The first offer of word k that the row at `row` has and `reached` has not.
    fn fresh_in(&self, row: usize, reached: &[u32], k: usize) -> Option<usize>
        requires word { row + k < length self.now.words.now }
        requires room { k < length reached.now }
        requires few { k < 19 }
        ensures { MatchOption result ((y : ℕ) → 32 * k ≤ y → y < 32 * k + 32 → y < self.now.n → word_row self.now.words.now row y ≡ true → word_row reached.now 0 y ≡ true) (λ y. (y < self.now.n) × (word_row self.now.words.now row y ≡ true) × (word_row reached.now 0 y ≡ false)) }
    {
        let fresh = self.words[row + k] & !reached[k];
        // The lowest bit; bits of the last word from n on are no offers.
        let y = 32 * k + fresh.trailing_zeros() as usize;
        (fresh != 0 && y < self.n).then_some(y)
    }
}

impl Volunteers<'_> {
    // Reads the volunteers' rows from the file; the other rows are free.
    pub(crate) fn load_rows(&self, state: &mut [u32])
        requires memory { kept_length self.now.n ≤ length state.old }
        ensures { (v x : ℕ) → v < self.now.volunteers → x < self.now.n → by_rows state.new self.now.n v x ≡ can_tend self.now.file.now self.now.n self.now.at v x }
    {
        let width = self.width();
        for v in 0..self.volunteers {
            load_row(
                self.file,
                self.row_of(v),
                self.n,
                state,
                (self.n + 1 + v) * width,
            );
        }
    }

    // The row of each offer becomes that of its volunteer, and is empty where it has none.
    pub(crate) fn start_rows(&self, matching: &Matching, state: &mut [u32])
        requires helpers { All (λ o. IfSome o (λ v. v < self.now.volunteers)) matching.now.tends }
        requires memory { kept_length self.now.n ≤ length state.old }
        ensures rows { (y x : ℕ) → y < self.now.n → x < self.now.n → in_row state.new (row_words self.now.n) y x ≡ start (by_rows state.old self.now.n) self.now.volunteers (named matching.now.tends) y x }
        ensures rest { (k x : ℕ) → self.now.n ≤ k → x < self.now.n → in_row state.new (row_words self.now.n) k x ≡ in_row state.old (row_words self.now.n) k x }
    {
        let width = self.width();
        for y in 0..self.n {
            if let Some(v) = matching.tends[y] {
                copy_within(state, (self.n + 1 + v as usize) * width, y * width, width);
            } else {
                clear(state, y * width, width);
            }
        }
    }

    // Row n becomes the rows of the free volunteers together.
    pub(crate) fn start_free(&self, matching: &Matching, state: &mut [u32])
        requires helped { All (λ o. IfSome o (λ x. x < self.now.n)) matching.now.owner }
        requires memory { kept_length self.now.n ≤ length state.old }
        ensures free { (x : ℕ) → x < self.now.n → in_row state.new (row_words self.now.n) self.now.n x ≡ start_free (by_rows state.old self.now.n) self.now.n self.now.volunteers (named matching.now.owner) x }
        ensures rest { (k x : ℕ) → k ≢ self.now.n → x < self.now.n → in_row state.new (row_words self.now.n) k x ≡ in_row state.old (row_words self.now.n) k x }
    {
        let width = self.width();
        let free_row = self.n * width;
        clear(state, free_row, width);
        for v in 0..self.volunteers {
            if matching.owner[v].is_none() {
                or_row(state, (self.n + 1 + v) * width, free_row, width);
            }
        }
    }

    // Each row up to n that has offer j takes the row of j, too; the rows behind row n are free.
    fn close_through(&self, j: usize, state: &mut [u32])
        requires offer { j < self.now.n }
        requires memory { kept_length self.now.n ≤ length state.old }
        ensures { (k x : ℕ) → k ≤ self.now.n → x < self.now.n → in_row state.new (row_words self.now.n) k x ≡ through (in_row state.old (row_words self.now.n)) j k x }
    {
        let width = self.width();
        for k in 0..self.n + 1 {
            if k != j && contains(state, k * width, j) {
                or_row(state, j * width, k * width, width);
            }
        }
    }

    // Closes the rows up to n: row k has every offer that is come to from it. The rows of offers outside of the set are empty.
    // The rows behind row n are free.
    pub(crate) fn close_rows(&self, set: &[u32], state: &mut [u32])
        requires members { row_words self.now.n ≤ length set.now }
        requires memory { kept_length self.now.n ≤ length state.old }
        requires empty { (y x : ℕ) → y < self.now.n → x < self.now.n → marked set.now y ≡ false → in_row state.old (row_words self.now.n) y x ≡ false }
        ensures chains { (k x : ℕ) → k ≤ self.now.n → x < self.now.n → in_row state.new (row_words self.now.n) k x ≡ true → Chain self.now.n (in_row state.old (row_words self.now.n)) k x }
        ensures base { (k x : ℕ) → k ≤ self.now.n → x < self.now.n → in_row state.old (row_words self.now.n) k x ≡ true → in_row state.new (row_words self.now.n) k x ≡ true }
        ensures closed { (k z x : ℕ) → k ≤ self.now.n → z < self.now.n → x < self.now.n → in_row state.new (row_words self.now.n) k z ≡ true → in_row state.new (row_words self.now.n) z x ≡ true → in_row state.new (row_words self.now.n) k x ≡ true }
    {
        for j in 0..self.n {
            if contains(set, 0, j) {
                self.close_through(j, state);
            }
        }
    }
}

// Links: each offer is a link between two towns, and a set of links is allowed if there is no ring in it.
#![tactic(auto)]

ghost use Rattle.std.specs.Prelude.{◌≡◌, ℕ, suc, ◌+◌, ◌*◌, ◌<◌, ◌≤◌, Bool, true, false, length, ◌==◌, ◌≢◌};
ghost use Rattle.sets.specs.Bits.{marked, row_words, word_row, xor};
ghost use Rattle.sets.specs.Matroid.{Set, pick, with, without};
ghost use Rattle.graphic.specs.Links.{from_town, to_town, allows, Well, read, read_towns, kept_length, label, in_row, Ready};

use sets::refusal::{Refusal, Source};
use sets::{bits, numbers, words};

pub mod theory;

// A rule of links as it lies in a file: n links between `towns` towns, the first of them at the place `at`.
// That n is at most 600 stands in clauses and not here, since `can_add` does not ask it.
#[derive(Clone, Copy)]
pub struct Links<'a> {
    pub file: &'a [u8],
    pub n: usize,
    pub towns: usize,
    pub at: usize,
    ghost well: { Well file.now n towns at },
}

// The first town of link i of a rule whose links begin at the place `at`.
pub fn from_town(file: &[u8], at: usize, i: usize) -> usize
    requires { at + 4 * i + 4 ≤ length file.now }
    ensures { result ≡ from_town file.now at i }
{
    numbers::read::<2>(file, at + 4 * i) as usize
}

// The second town of link i of a rule whose links begin at the place `at`.
pub fn to_town(file: &[u8], at: usize, i: usize) -> usize
    requires { at + 4 * i + 4 ≤ length file.now }
    ensures { result ≡ to_town file.now at i }
{
    numbers::read::<2>(file, at + 4 * i + 2) as usize
}

// Reads the rule at the place p: how many towns it has, if all of it is as it should be.
pub fn read(file: &[u8], n: usize, p: usize) -> Result<usize, Refusal>
    requires { (n ≤ 600) × (p ≤ length file.now) }
    ensures { result ≡ read file.now n p }
{
    if file.len() - p < 2 {
        return Err(Refusal::Length(Source::Offers, file.len()));
    }
    let towns = numbers::read::<2>(file, p) as usize;
    if towns > 600 {
        return Err(Refusal::Range(Source::Offers, p));
    }
    check_towns(file, towns, 2 * n, p + 2)
}

// Are `count` towns there from the place `at` on, and each of them below the number of towns?
#[tactic(auto, using(crate::proofs::Reading::towns_step))]
fn check_towns(file: &[u8], towns: usize, count: usize, at: usize) -> Result<usize, Refusal>
    requires count { count ≤ 1200 }
    requires place { at ≤ length file.now }
    ensures { result ≡ read_towns file.now towns count at }
{
    for j in 0..count {
        let place = at + 2 * j;
        if file.len() - place < 2 {
            return Err(Refusal::Length(Source::Offers, file.len()));
        }
        if numbers::read::<2>(file, place) as usize >= towns {
            return Err(Refusal::Town(place));
        }
    }
    Ok(towns)
}

impl Links<'_> {
    // The two towns of link i.
    fn ends(&self, i: usize) -> (usize, usize)
        requires { i < self.now.n }
        ensures first { result.0 ≡ from_town self.now.file.now self.now.at i }
        ensures second { result.1 ≡ to_town self.now.file.now self.now.at i }
    {
        (
            from_town(self.file, self.at, i),
            to_town(self.file, self.at, i),
        )
    }

    // How many words a row of links takes.
    fn row_len(&self) -> usize
        ensures { result ≡ row_words self.now.n }
    {
        self.n.div_ceil(32)
    }

    // Where the row of a town begins in the kept state.
    fn row_at(&self, town: usize) -> usize
        requires few { self.now.n ≤ 600 }
        requires town { town < 600 }
        ensures { result ≡ 600 + row_words self.now.n * suc town }
    {
        600 + self.row_len() * (town + 1)
    }

    // Do the rows of two towns differ in the link y?
    fn rows_differ(&self, state: &[u32], u: usize, v: usize, y: usize) -> bool
        requires few { self.now.n ≤ 600 }
        requires room { kept_length self.now.n ≤ length state.now }
        requires first { u < 600 }
        requires second { v < 600 }
        requires link { y < self.now.n }
        ensures { result ≡ xor (in_row state.now self.now.n u y) (in_row state.now self.now.n v y) }
    {
        bits::contains(state, self.row_at(u), y) != bits::contains(state, self.row_at(v), y)
    }

    // A town that takes another label adds the working row to its own.
    fn merge_town(&self, state: &mut [u32], town: usize, new: u32)
        requires few { self.now.n ≤ 600 }
        requires room { kept_length self.now.n ≤ length state.old }
        requires town { town < 600 }
        ensures label { label state.new town ≡ new }
        ensures row { (z : ℕ) → z < self.now.n → in_row state.new self.now.n town z ≡ xor (in_row state.old self.now.n town z) (word_row state.old 600 z) }
        ensures work { (z : ℕ) → z < self.now.n → word_row state.new 600 z ≡ word_row state.old 600 z }
        ensures labels { (t : ℕ) → t < 600 → t ≢ town → label state.new t ≡ label state.old t }
        ensures rows { (t z : ℕ) → t < 600 → t ≢ town → z < self.now.n → in_row state.new self.now.n t z ≡ in_row state.old self.now.n t z }
    {
        let len = self.row_len();
        words::xor_row(state, 600, self.row_at(town), len);
        state[town] = new;
    }

    // Every town with the label `old` takes the label `new` and adds the working row to its own.
    fn merge_classes(&self, state: &mut [u32], old: u32, new: u32)
        requires few { self.now.n ≤ 600 }
        requires room { kept_length self.now.n ≤ length state.old }
        ensures labels { (t : ℕ) → t < self.now.towns → label state.new t ≡ pick (label state.old t == old) new (label state.old t) }
        ensures rows { (t z : ℕ) → t < self.now.towns → z < self.now.n → in_row state.new self.now.n t z ≡ pick (label state.old t == old) (xor (in_row state.old self.now.n t z) (word_row state.old 600 z)) (in_row state.old self.now.n t z) }
    {
        for t in 0..self.towns {
            if state[t] == old {
                self.merge_town(state, t, new);
            }
        }
    }

    // The working row becomes the sum of the rows of two towns and of the link x.
    fn sum_rows(&self, state: &mut [u32], u: usize, v: usize, x: usize)
        requires few { self.now.n ≤ 600 }
        requires room { kept_length self.now.n ≤ length state.old }
        requires first { u < 600 }
        requires second { v < 600 }
        requires link { x < self.now.n }
        ensures sum { (z : ℕ) → z < self.now.n → word_row state.new 600 z ≡ xor (xor (z == x) (in_row state.old self.now.n u z)) (in_row state.old self.now.n v z) }
        ensures labels { (t : ℕ) → t < 600 → label state.new t ≡ label state.old t }
        ensures rows { (t z : ℕ) → t < 600 → z < self.now.n → in_row state.new self.now.n t z ≡ in_row state.old self.now.n t z }
    {
        let len = self.row_len();
        bits::clear(state, 600, len);
        bits::insert(state, 600, x);
        words::xor_row(state, self.row_at(u), 600, len);
        words::xor_row(state, self.row_at(v), 600, len);
    }

    // Adds the link x to a set and its kept state, unless its two towns are joined already.
    // A bool and no Option, since what is kept lies in lent memory.
    fn add_link(&self, state: &mut [u32], x: usize) -> bool
        requires few { self.now.n ≤ 600 }
        requires room { kept_length self.now.n ≤ length state.old }
        requires link { x < self.now.n }
        ensures answers { (s : Set) → Ready self.now.file.now self.now.n self.now.towns self.now.at s state.old → s x ≡ false → result ≡ allows self.now.file.now self.now.n self.now.towns self.now.at (with s x) }
        ensures grows { (s : Set) → Ready self.now.file.now self.now.n self.now.towns self.now.at s state.old → s x ≡ false → result ≡ true → Ready self.now.file.now self.now.n self.now.towns self.now.at (with s x) state.new }
    {
        let (u, v) = self.ends(x);
        let new = state[u];
        let old = state[v];
        if new == old {
            return false;
        }
        self.sum_rows(state, u, v, x);
        self.merge_classes(state, old, new);
        true
    }

    // Gives each town a label of its own: the kept state of the empty set.
    fn start(&self, state: &mut [u32])
        requires room { self.now.towns ≤ length state.old }
        ensures { (t : ℕ) → t < self.now.towns → label state.new t ≡ t }
    {
        for (t, label) in state[..self.towns].iter_mut().enumerate() {
            *label = t as u32;
        }
    }

    // Is the set allowed? If so, the lent memory then holds the kept state of the set; else it holds anything.
    // A bool and no Option, since what is kept lies in lent memory.
    pub fn independent(&self, set: &[u32], state: &mut [u32]) -> bool
        requires few { self.now.n ≤ 600 }
        requires whole { row_words self.now.n ≤ length set.now }
        requires room { kept_length self.now.n ≤ length state.old }
        ensures answers { result ≡ allows self.now.file.now self.now.n self.now.towns self.now.at (marked set.now) }
        ensures ready { result ≡ true → Ready self.now.file.now self.now.n self.now.towns self.now.at (marked set.now) state.new }
    {
        self.start(state);
        // A loop and no `all`, since each link that is added changes the state.
        for i in 0..self.n {
            if bits::contains(set, 0, i) && !self.add_link(state, i) {
                return false;
            }
        }
        true
    }

    // May the link x be added to the set?
    pub fn can_add(&self, set: &[u32], state: &[u32], x: usize) -> bool
        requires ready { Ready self.now.file.now self.now.n self.now.towns self.now.at (marked set.now) state.now }
        requires new { (x < self.now.n) × (marked set.now x ≡ false) }
        ensures { result ≡ allows self.now.file.now self.now.n self.now.towns self.now.at (with (marked set.now) x) }
    {
        let (from, to) = self.ends(x);
        state[from] != state[to]
    }

    // May the link x take the place of the link y of the set?
    pub fn can_exchange(&self, set: &[u32], state: &[u32], x: usize, y: usize) -> bool
        requires few { self.now.n ≤ 600 }
        requires ready { Ready self.now.file.now self.now.n self.now.towns self.now.at (marked set.now) state.now }
        requires new { (x < self.now.n) × (marked set.now x ≡ false) }
        requires old { (y < self.now.n) × (marked set.now y ≡ true) }
        ensures { result ≡ allows self.now.file.now self.now.n self.now.towns self.now.at (with (without (marked set.now) y) x) }
    {
        let (u, v) = self.ends(x);
        state[u] != state[v] || self.rows_differ(state, u, v, y)
    }
}

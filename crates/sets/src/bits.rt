// Sets as rows of bits in lent bytes or words. A row begins at byte or word `at` of its slice; it is given by slice and place,
// since rows of one slice are read and written together.
ghost use Rattle.std.specs.Prelude.{◌≡◌, ℕ, ◌+◌, ◌*◌, ◌/◌, ◌<◌, ◌≤◌, Bool, false, not, ◌&&◌, ◌||◌, length, Decides, ◌==◌, slice_index_or};
ghost use Rattle.sets.specs.Bits.{SameApart};
ghost use Rattle.sets.specs.Matroid.{size, Within};

use crate::cell::Cell;

// Is i in the row?
#[tactic(auto, using(crate::proofs::Cells::cell_below))]
pub fn contains<T: Cell>(set: &[T], at: usize, i: usize) -> bool
    requires { T.BITS * at + i < T.BITS * length set.now }
    ensures { result ≡ T.element set.now (T.BITS * at + i) }
{
    set[at + i / T::BITS].has(i % T::BITS)
}

// Puts i into the row.
#[tactic(auto, using(crate::proofs::Cells::cell_below))]
pub fn insert<T: Cell>(set: &mut [T], at: usize, i: usize)
    requires { T.BITS * at + i < T.BITS * length set.old }
    ensures members { (j : ℕ) → T.element set.new j ≡ (T.element set.old j || j == T.BITS * at + i) }
    ensures rest { SameApart T.EMPTY (at + i / T.BITS) 1 set.old set.new }
{
    let k = at + i / T::BITS;
    set[k] = set[k].with(i % T::BITS);
}

// Takes i out of the row. It differs from `insert` in what it does with the cell.
#[tactic(auto, using(crate::proofs::Cells::cell_below))]
pub fn remove<T: Cell>(set: &mut [T], at: usize, i: usize)
    requires { T.BITS * at + i < T.BITS * length set.old }
    ensures members { (j : ℕ) → T.element set.new j ≡ (T.element set.old j && not (j == T.BITS * at + i)) }
    ensures rest { SameApart T.EMPTY (at + i / T.BITS) 1 set.old set.new }
{
    let k = at + i / T::BITS;
    set[k] = set[k].without(i % T::BITS);
}

// How many of the first n elements are in the row.
// Loops here and below: of `filter(..).count()` the result stayed open, of `all(..)` the bound of the second row in the closure.
pub fn count<T: Cell>(set: &[T], at: usize, n: usize) -> usize
    requires { T.BITS * at + n ≤ T.BITS * length set.now }
    ensures { result ≡ size n (λ i. T.element set.now (T.BITS * at + i)) }
{
    let mut total = 0;
    for i in 0..n {
        if contains(set, at, i) {
            total += 1;
        }
    }
    total
}

// Have row `at` of a and row `to` of b the same of the first n elements?
pub fn equal<T: Cell>(a: &[T], at: usize, b: &[T], to: usize, n: usize) -> bool
    requires first { T.BITS * at + n ≤ T.BITS * length a.now }
    requires second { T.BITS * to + n ≤ T.BITS * length b.now }
    ensures { Decides result ((i : ℕ) → i < n → T.element a.now (T.BITS * at + i) ≡ T.element b.now (T.BITS * to + i)) }
{
    for i in 0..n {
        if contains(a, at, i) != contains(b, to, i) {
            return false;
        }
    }
    true
}

// Does row `at` of a lie in row `to` of b, as to the first n elements?
pub fn lies_in<T: Cell>(a: &[T], at: usize, b: &[T], to: usize, n: usize) -> bool
    requires first { T.BITS * at + n ≤ T.BITS * length a.now }
    requires second { T.BITS * to + n ≤ T.BITS * length b.now }
    ensures { Decides result (Within n (λ i. T.element a.now (T.BITS * at + i)) (λ i. T.element b.now (T.BITS * to + i))) }
{
    for i in 0..n {
        if contains(a, at, i) && !contains(b, to, i) {
            return false;
        }
    }
    true
}

// Empties the row of `len` bytes or words.
pub fn clear<T: Cell>(set: &mut [T], at: usize, len: usize)
    requires { at + len ≤ length set.old }
    ensures zeros { (p : ℕ) → p < len → slice_index_or set.new (at + p) T.EMPTY ≡ T.EMPTY }
    ensures members { (j : ℕ) → j < T.BITS * len → T.element set.new (T.BITS * at + j) ≡ false }
    ensures rest { SameApart T.EMPTY at len set.old set.new }
{
    set[at..at + len].fill(T::EMPTY);
}

// Row `to` of `set` becomes row `at` of `from`, of `len` bytes or words each.
pub fn copy<T: Cell>(from: &[T], at: usize, set: &mut [T], to: usize, len: usize)
    requires read { at + len ≤ length from.now }
    requires written { to + len ≤ length set.old }
    ensures same { (p : ℕ) → p < len → slice_index_or set.new (to + p) T.EMPTY ≡ slice_index_or from.now (at + p) T.EMPTY }
    ensures members { (j : ℕ) → j < T.BITS * len → T.element set.new (T.BITS * to + j) ≡ T.element from.now (T.BITS * at + j) }
    ensures rest { SameApart T.EMPTY to len set.old set.new }
{
    set[to..to + len].copy_from_slice(&from[at..at + len]);
}

// Row `to` becomes what row `from` of the same slice was, of `len` bytes or words each.
pub fn copy_within<T: Cell>(set: &mut [T], from: usize, to: usize, len: usize)
    requires read { from + len ≤ length set.old }
    requires written { to + len ≤ length set.old }
    ensures same { (p : ℕ) → p < len → slice_index_or set.new (to + p) T.EMPTY ≡ slice_index_or set.old (from + p) T.EMPTY }
    ensures members { (j : ℕ) → j < T.BITS * len → T.element set.new (T.BITS * to + j) ≡ T.element set.old (T.BITS * from + j) }
    ensures rest { SameApart T.EMPTY to len set.old set.new }
{
    set.copy_within(from..from + len, to);
}

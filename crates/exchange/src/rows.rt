// Rows and tables of bits in lent words: one row at the front of a slice, and a table of n rows of n bits.
ghost use Rattle.std.specs.Prelude.{◌≡◌, ℕ, ◌+◌, ◌-◌, ◌*◌, ◌<◌, ◌≤◌, true, false, ◌&&◌, length, ◌==◌, ◌≢◌};
ghost use Rattle.exchange.specs.Graph.{table};
ghost use Rattle.exchange.specs.Rows.{First};
ghost use Rattle.sets.specs.Bits.{marked, word_row, row_words};
ghost use Rattle.sets.specs.Matroid.{pick, outside};

use sets::bits::{clear, contains, insert, remove};

// Is x in the row?
pub fn holds(row: &[u32], x: usize) -> bool
    requires { x < 32 * length row.now }
    ensures { result ≡ marked row.now x }
{
    contains(row, 0, x)
}

// Puts x into the row, or takes it out.
pub fn put(row: &mut [u32], x: usize, there: bool)
    requires { x < 32 * length row.old }
    ensures { (j : ℕ) → marked row.new j ≡ pick (j == x) there (marked row.old j) }
{
    if there {
        insert(row, 0, x);
    } else {
        remove(row, 0, x);
    }
}

// The word at which the row of v begins in the table.
fn row_at(n: usize, v: usize) -> usize
    requires few { n ≤ 600 }
    requires below { v < n }
    ensures { result ≡ row_words n * v }
{
    n.div_ceil(32) * v
}

// Is there an arc from v to u in the table?
pub fn joins(arcs: &[u32], n: usize, v: usize, u: usize) -> bool
    requires few { n ≤ 600 }
    requires room { row_words n * n ≤ length arcs.now }
    requires below { (v < n) × (u < n) }
    ensures { result ≡ table n arcs.now v u }
{
    contains(arcs, row_at(n, v), u)
}

// Takes every arc from v out of the table.
pub fn clear_row(arcs: &mut [u32], n: usize, v: usize)
    requires few { n ≤ 600 }
    requires room { row_words n * n ≤ length arcs.old }
    requires below { v < n }
    ensures row { (u : ℕ) → u < n → table n arcs.new v u ≡ false }
    ensures rest { (i u : ℕ) → i < n → u < n → i ≢ v → table n arcs.new i u ≡ table n arcs.old i u }
{
    clear(arcs, row_at(n, v), n.div_ceil(32));
}

// Puts the arc from v to u into the table.
pub fn join(arcs: &mut [u32], n: usize, v: usize, u: usize)
    requires few { n ≤ 600 }
    requires room { row_words n * n ≤ length arcs.old }
    requires below { (v < n) × (u < n) }
    ensures { (i j : ℕ) → i < n → j < n → table n arcs.new i j ≡ pick (i == v && j == u) true (table n arcs.old i j) }
{
    insert(arcs, row_at(n, v), u);
}

// The first element from `from` on that is in the row at word `at` and not in the other row.
fn next_outside(row: &[u32], at: usize, other: &[u32], from: usize, n: usize) -> Option<usize>
    requires few { n ≤ 600 }
    requires room { (at + row_words n ≤ length row.now) × (row_words n ≤ length other.now) }
    ensures { First (outside (word_row row.now at) (marked other.now)) from n result }
{
    // A word in which nothing is left is skipped whole, so this is no `for` over the elements.
    let mut i = from;
    while i < n {
        let rest = (row[at + i / 32] & !other[i / 32]) >> (i % 32);
        if rest == 0 {
            i = (i / 32 + 1) * 32;
        } else if rest % 2 == 1 {
            return Some(i);
        } else {
            i += 1;
        }
    }
    None
}

// The first element from `from` on to which an arc leads from v and that is not in the other row.
pub fn next_head(arcs: &[u32], v: usize, other: &[u32], from: usize, n: usize) -> Option<usize>
    requires few { n ≤ 600 }
    requires room { (row_words n * n ≤ length arcs.now) × (row_words n ≤ length other.now) }
    requires below { v < n }
    ensures { First (outside (table n arcs.now v) (marked other.now)) from n result }
{
    next_outside(arcs, row_at(n, v), other, from, n)
}

// The elements below n, from `from` on, that are in the row at word `at` and not in the other row.
#[derive(Clone, Copy)]
pub struct Members<'a> {
    row: &'a [u32],
    at: usize,
    other: &'a [u32],
    from: usize,
    n: usize,
    ghost few: { n ≤ 600 },
    ghost room: { at + row_words n ≤ length row.now },
    ghost other_room: { row_words n ≤ length other.now },
}

impl<'a> Members<'a> {
    ghost use Rattle.exchange.specs.Members.{members_of};

    // The elements of the row that are not in the other row, in order.
    pub fn open(row: &'a [u32], other: &'a [u32], n: usize) -> Members<'a>
        requires few { n ≤ 600 }
        requires room { (row_words n ≤ length row.now) × (row_words n ≤ length other.now) }
        ensures begins { (result.from ≡ 0) × (result.n ≡ n) }
        ensures members { (i : ℕ) → members_of result i ≡ outside (marked row.now) (marked other.now) i }
    {
        Members {
            row,
            at: 0,
            other,
            from: 0,
            n,
        }
    }
}

impl Iterator for Members<'_> {
    ghost use Rattle.exchange.specs.Members.{NextMember};
    ghost use Rattle.std.specs.Iterator.{at_most};

    type Item = usize;

    ghost next_gives = { NextMember };

    ghost remaining = { λ s. at_most (s.n - s.from) };

    fn next(&mut self) -> Option<usize> {
        let i = next_outside(self.row, self.at, self.other, self.from, self.n)?;
        self.from = i + 1;
        Some(i)
    }
}

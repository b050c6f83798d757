// A dual basis of a set of rows, grown row by row.
ghost use Rattle.std.specs.Prelude.{◌≡◌, ℕ, ◌+◌, ◌-◌, ◌*◌, ◌%◌, ◌<◌, ◌≤◌, true, false, not, length, slice_index};
ghost use Rattle.sets.specs.Bits.{marked, row_words};
ghost use Rattle.sets.specs.Matroid.{pick};
ghost use Rattle.linear.specs.Rows.{number, span, spanned};
ghost use Rattle.linear.specs.Kept.{dot, functional, flag, kept_length, rest, fresh, Dual};

use crate::rows::Rows;
use crate::vectors::{Row, add_multiple, chosen, find_column, inverse};

impl Rows<'_> {
    // Takes row r of the set into the dual basis of the set's rows below r, unless they span it.
    // Where it answers false, the state is as it was.
    // A bool and no Option, since the basis lies in lent memory.
    pub(crate) fn insert(&self, set: &[u32], state: &mut [u32], r: usize) -> bool
        requires row { r < self.now.n }
        requires members { row_words self.now.n ≤ length set.now }
        requires room { kept_length self.now.n ≤ length state.old }
        requires dual { Dual self.now.prime self.now.len (number self.now.file.now self.now.len self.now.at) (functional state.old) r (marked set.now) }
        ensures answer { result ≡ not (spanned self.now.prime self.now.len (number self.now.file.now self.now.len self.now.at) (marked set.now) r (number self.now.file.now self.now.len self.now.at r)) }
        ensures grown { result ≡ true → Dual self.now.prime self.now.len (number self.now.file.now self.now.len self.now.at) (functional state.new) (r + 1) (marked set.now) }
        ensures unchanged { result ≡ false → state.new ≡ state.old }
    {
        let rest = self.find_rest(set, state, r, r);
        let Some(q) = find_column(&rest, self.len) else {
            return false;
        };
        let scale = inverse(self.prime, rest[q] as u64);
        let g = self.find_functional(set, state, r, q, scale);
        self.correct(set, state, r, &g);
        state[65 * r..65 * r + self.len].copy_from_slice(&g[..self.len]);
        true
    }

    // Writes behind each functional whether the set spans the offer's row; the functionals stay a dual basis.
    pub(crate) fn note_spanned(&self, set: &[u32], state: &mut [u32])
        requires members { row_words self.now.n ≤ length set.now }
        requires room { kept_length self.now.n ≤ length state.old }
        requires dual { Dual self.now.prime self.now.len (number self.now.file.now self.now.len self.now.at) (functional state.old) self.now.n (marked set.now) }
        ensures dual { Dual self.now.prime self.now.len (number self.now.file.now self.now.len self.now.at) (functional state.new) self.now.n (marked set.now) }
        ensures flags { (x : ℕ) → x < self.now.n → flag state.new x ≡ pick (span self.now.file.now self.now.n self.now.prime self.now.len self.now.at (marked set.now) x) 1 0 }
    {
        for x in 0..self.n {
            state[65 * x + 64] = u32::from(self.is_spanned(set, state, x));
        }
    }

    // Does the set span row x, by its dual basis?
    fn is_spanned(&self, set: &[u32], state: &[u32], x: usize) -> bool
        requires row { x < self.now.n }
        requires members { row_words self.now.n ≤ length set.now }
        requires room { kept_length self.now.n ≤ length state.now }
        requires dual { Dual self.now.prime self.now.len (number self.now.file.now self.now.len self.now.at) (functional state.now) self.now.n (marked set.now) }
        ensures { result ≡ span self.now.file.now self.now.n self.now.prime self.now.len self.now.at (marked set.now) x }
    {
        let rest = self.find_rest(set, state, self.n, x);
        find_column(&rest, self.len).is_none()
    }

    // The rest of row x by the dual basis of the set's rows below m.
    fn find_rest(&self, set: &[u32], state: &[u32], m: usize, x: usize) -> Row
        requires rows { (m ≤ self.now.n) × (x < self.now.n) }
        requires members { row_words self.now.n ≤ length set.now }
        requires kept { kept_length self.now.n ≤ length state.now }
        ensures { (j : ℕ) → j < self.now.len → slice_index result j ≡ rest self.now.prime self.now.len (number self.now.file.now self.now.len self.now.at) (functional state.now) m (marked set.now) (number self.now.file.now self.now.len self.now.at x) j % self.now.prime }
    {
        let mut sum = self.load(x);
        for y in 0..m {
            if chosen(set, y) {
                let c = self.prime - self.value(state, y, x);
                self.add_row(y, c, &mut sum);
            }
        }
        sum
    }

    // Adds c times row y to `sum`.
    fn add_row(&self, y: usize, c: u64, sum: &mut Row)
        requires row { y < self.now.n }
        requires multiple { c ≤ self.now.prime }
        ensures { (j : ℕ) → j < self.now.len → slice_index sum.new j ≡ (slice_index sum.old j + c * number self.now.file.now self.now.len self.now.at y j) % self.now.prime }
    {
        for j in 0..self.len {
            let number = sum[j] as u64 + c * self.number_at(y, j) as u64;
            sum[j] = (number % self.prime) as u32;
        }
    }

    // The functional that takes `scale` times number q of a row, made 0 at the set's rows below m by their dual basis.
    fn find_functional(&self, set: &[u32], state: &[u32], m: usize, q: usize, scale: u64) -> Row
        requires rows { m ≤ self.now.n }
        requires column { q < self.now.len }
        requires scale { scale < self.now.prime }
        requires members { row_words self.now.n ≤ length set.now }
        requires kept { kept_length self.now.n ≤ length state.now }
        ensures { (j : ℕ) → j < self.now.len → slice_index result j ≡ fresh self.now.prime (number self.now.file.now self.now.len self.now.at) (functional state.now) m (marked set.now) q scale j % self.now.prime }
    {
        let mut sum = [0; 64];
        sum[q] = scale as u32;
        for z in 0..m {
            if chosen(set, z) {
                let c = self.prime - scale * self.number_at(z, q) as u64 % self.prime;
                let functional = &state[65 * z..65 * z + self.len];
                add_multiple(&mut sum[..self.len], functional, self.prime, c);
            }
        }
        sum
    }

    // Makes the functionals of the set's rows below r zero at row r, by multiples of g; the rest of the state is free.
    fn correct(&self, set: &[u32], state: &mut [u32], r: usize, g: &Row)
        requires row { r < self.now.n }
        requires members { row_words self.now.n ≤ length set.now }
        requires kept { kept_length self.now.n ≤ length state.old }
        ensures { (z j : ℕ) → z < r → marked set.now z ≡ true → j < self.now.len → functional state.new z j ≡ (functional state.old z j + (self.now.prime - dot self.now.len (functional state.old z) (number self.now.file.now self.now.len self.now.at r) % self.now.prime) * slice_index g.now j) % self.now.prime }
    {
        for z in 0..r {
            if chosen(set, z) {
                let c = self.prime - self.value(state, z, r);
                let functional = &mut state[65 * z..65 * z + self.len];
                add_multiple(functional, &g[..self.len], self.prime, c);
            }
        }
    }
}

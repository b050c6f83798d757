// The dual set: the elements from which a sink can be reached.
ghost use Rattle.std.specs.Prelude.{◌≡◌, ℕ, ◌+◌, ◌*◌, ◌<◌, ◌≤◌, true, false, length};
ghost use Rattle.exchange.specs.Graph.{table, Reaching};
ghost use Rattle.sets.specs.Bits.{marked, row_words};
ghost use Rattle.sets.specs.Matroid.{Set, size, Within};

use crate::rows::{holds, joins, put};
use crate::tables::ExchangeTables;
use sets::bits::copy;

// Takes in each element from which an arc leads into the set, in one pass. Says whether there was one.
fn grow(n: usize, arcs: &[u32], dual: &mut [u32]) -> bool
    requires few { n ≤ 600 }
    requires room { (row_words n * n ≤ length arcs.now) × (row_words n ≤ length dual.old) }
    ensures larger { (x : ℕ) → marked dual.old x ≡ true → marked dual.new x ≡ true }
    ensures grown { result ≡ true → size n (marked dual.old) < size n (marked dual.new) }
    ensures done { result ≡ false → (v x : ℕ) → v < n → x < n → table n arcs.now v x ≡ true → marked dual.new x ≡ true → marked dual.new v ≡ true }
    ensures least { (t : Set) → ((v x : ℕ) → v < n → x < n → table n arcs.now v x ≡ true → t x ≡ true → t v ≡ true) → Within n (marked dual.old) t → Within n (marked dual.new) t }
{
    let mut grown = false;
    'offers: for v in 0..n {
        if holds(dual, v) {
            continue;
        }
        for x in 0..n {
            if joins(arcs, n, v, x) && holds(dual, x) {
                put(dual, v, true);
                grown = true;
                continue 'offers;
            }
        }
    }
    grown
}

impl ExchangeTables<'_> {
    // The dual set: all elements from which a sink can be reached along arcs.
    pub fn dual_set(&self, n: usize, dual: &mut [u32])
        requires few { n ≤ 600 }
        requires arcs { row_words n * n ≤ length self.now.arcs.now }
        requires sinks { row_words n ≤ length self.now.sinks.now }
        requires room { row_words n ≤ length dual.old }
        ensures { Reaching n (table n self.now.arcs.now) (marked self.now.sinks.now) (marked dual.new) }
    {
        copy(self.sinks, 0, dual, 0, n.div_ceil(32));
        while grow(n, self.arcs, dual) {}
    }
}

// Rows and functionals as numbers modulo a prime in lent words.
ghost use Rattle.std.specs.Prelude.{◌≡◌, ℕ, ◌+◌, ◌-◌, ◌*◌, ◌%◌, ◌^◌, ◌<◌, ◌≤◌, ◌≢◌, length, slice_index, MatchOption};
ghost use Rattle.sets.specs.Bits.{marked};

use sets::bits;

// A row or a functional: `len` numbers, and what stands behind them does not count.
pub type Row = [u32; 64];

// Is offer i in the set?
pub fn chosen(set: &[u32], i: usize) -> bool
    requires { i < 32 * length set.now }
    ensures { result ≡ marked set.now i }
{
    bits::contains(set, 0, i)
}

// The first of the first `len` numbers that is not zero.
pub fn find_column(row: &Row, len: usize) -> Option<usize>
    requires { len ≤ 64 }
    ensures { MatchOption result ((j : ℕ) → j < len → slice_index row.now j ≡ 0) (λ q. (q < len) × ((j : ℕ) → j < q → slice_index row.now j ≡ 0) × (slice_index row.now q ≢ 0)) }
{
    row[..len].iter().position(|number| *number != 0)
}

// Adds c times the numbers of `source` to those of `target`, modulo the prime.
pub fn add_multiple(target: &mut [u32], source: &[u32], prime: u64, c: u64)
    requires field { (0 < prime) × (prime ≤ 251) }
    requires small { c ≤ 251 }
    requires alike { length target.old ≡ length source.now }
    ensures { (j : ℕ) → j < length target.old → slice_index target.new j ≡ (slice_index target.old j + c * slice_index source.now j) % prime }
{
    for j in 0..target.len() {
        target[j] = ((target[j] as u64 + c * source[j] as u64) % prime) as u32;
    }
}

// The inverse of c modulo the prime: its power of the exponent prime - 2.
pub fn inverse(prime: u64, c: u64) -> u64
    requires field { (1 < prime) × (prime ≤ 251) }
    requires below { c < prime }
    ensures { result ≡ c ^ (prime - 2) % prime }
{
    (0..prime - 2).fold(1, |power, _| power * c % prime)
}

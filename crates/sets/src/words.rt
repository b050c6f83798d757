// What only rows in lent words have: rows of one slice taken together, and the way from bytes and back.
ghost use Rattle.std.specs.Prelude.{◌≡◌, ℕ, ◌+◌, ◌-◌, ◌*◌, ◌/◌, ◌%◌, ◌^◌, ◌<◌, ◌≤◌, Bool, true, false, not, ◌&&◌, ◌||◌, ◌⊎◌, length, ◌==◌, nat_lt, slice_index};
ghost use Rattle.sets.specs.Bits.{marked, row, word_row, row_words, row_bytes, xor, SameBut};

use crate::bits;

// Row `to` takes what is in row `from`, too. The two rows of `len` words share no word.
// Beside `xor_row`, not one function with it: with the operator passed in, this contract would stand three times for a one-line loop.
pub fn or_row(words: &mut [u32], from: usize, to: usize, len: usize)
    requires within { (from + len ≤ length words.old) × (to + len ≤ length words.old) }
    requires apart { (from + len ≤ to) ⊎ (to + len ≤ from) }
    ensures marks { (j : ℕ) → j < 32 * len → word_row words.new to j ≡ (word_row words.old to j || word_row words.old from j) }
    ensures rest { SameBut to len words.old words.new }
{
    for k in 0..len {
        words[to + k] |= words[from + k];
    }
}

// Row `to` takes what is in row `from` and not in it, and loses what is in both. The two rows of `len` words share no word.
pub fn xor_row(words: &mut [u32], from: usize, to: usize, len: usize)
    requires within { (from + len ≤ length words.old) × (to + len ≤ length words.old) }
    requires apart { (from + len ≤ to) ⊎ (to + len ≤ from) }
    ensures marks { (j : ℕ) → j < 32 * len → word_row words.new to j ≡ xor (word_row words.old to j) (word_row words.old from j) }
    ensures rest { SameBut to len words.old words.new }
{
    for k in 0..len {
        words[to + k] ^= words[from + k];
    }
}

// The low n bits of a byte: all of it from 8 on.
fn low_bits(byte: u8, n: usize) -> u8
    ensures { result ≡ byte % 2 ^ n }
{
    if n < 8 { byte % (1 << n) } else { byte }
}

// Row `to` of words becomes the row of n bits in the bytes from `at` on; what is left of its last word is 0.
pub fn load_row(bytes: &[u8], at: usize, n: usize, words: &mut [u32], to: usize)
    requires { (at + row_bytes n ≤ length bytes.now) × ((to + row_words n ≤ length words.old) × (n < 2 ^ 32)) }
    ensures marks { (j : ℕ) → j < 32 * row_words n → word_row words.new to j ≡ (nat_lt j n && row bytes.now at j) }
    ensures rest { SameBut to (row_words n) words.old words.new }
{
    bits::clear(words, to, n.div_ceil(32));
    for k in 0..n.div_ceil(8) {
        let byte = low_bits(bytes[at + k], n - 8 * k);
        words[to + k / 4] |= (byte as u32) << (8 * (k % 4));
    }
}

// The bytes from `to` on become row `from` of words, of n bits; what is left of the last byte is 0.
pub fn store_row(words: &[u32], from: usize, n: usize, bytes: &mut [u8], to: usize)
    requires { (from + row_words n ≤ length words.now) × ((to + row_bytes n ≤ length bytes.old) × (n < 2 ^ 32)) }
    ensures members { (j : ℕ) → j < 8 * row_bytes n → row bytes.new to j ≡ (nat_lt j n && word_row words.now from j) }
    ensures rest { SameBut to (row_bytes n) bytes.old bytes.new }
{
    for k in 0..n.div_ceil(8) {
        let byte = (words[from + k / 4] >> (8 * (k % 4))) % 256;
        bytes[to + k] = low_bits(byte as u8, n - 8 * k);
    }
}

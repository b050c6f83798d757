// A certificate's bytes, written from the rows and the numbers of a choice.
ghost use Rattle.std.specs.Prelude.{◌≡◌, ℕ, ◌+◌, ◌-◌, ◌*◌, ◌^◌, ◌<◌, ◌≤◌, ◌&&◌, length, nat_lt, slice_index};
ghost use Rattle.sets.specs.Bits.{row, row_bytes, le8, SameBut};
ghost use Rattle.certificate.specs.Layout.{row_at};
ghost use Rattle.certificate.specs.Writing.{RowWritten, NumbersWritten, Written, OnlyRow};

use crate::layout::row_at;
use sets::{bits, numbers};

// Row `to` of the certificate becomes row `at` of the sets, of n bits; what is left of its last byte is 0.
fn write_row(n: usize, sets: &[u8], at: usize, sheet: &mut [u8], to: usize)
    requires few { n ≤ 600 }
    requires there { at + row_bytes n ≤ length sets.now }
    requires room { to + row_bytes n ≤ length sheet.old }
    requires small { to < 2 ^ 32 }
    ensures members { (j : ℕ) → j < 8 * row_bytes n → row sheet.new to j ≡ (nat_lt j n && row sets.now at j) }
    ensures rest { SameBut to (row_bytes n) sheet.old sheet.new }
{
    bits::copy(sets, at, sheet, to, n.div_ceil(8));
    for j in n..8 * n.div_ceil(8) {
        bits::remove(sheet, to, j);
    }
}

// Writes the numbers into the certificate's bytes from `to` on.
fn write_numbers(numbers: &[u64], sheet: &mut [u8], to: usize)
    requires few { length numbers.now ≤ 1200 }
    requires room { to + 8 * length numbers.now ≤ length sheet.old }
    requires small { to < 2 ^ 32 }
    ensures numbers { (x : ℕ) → x < length numbers.now → le8 sheet.new (to + 8 * x) ≡ slice_index numbers.now x }
    ensures rest { SameBut to (8 * length numbers.now) sheet.old sheet.new }
{
    for (x, number) in numbers.iter().enumerate() {
        numbers::write::<8>(sheet, to + 8 * x, *number);
    }
}

// Writes row i, and from the third row on the numbers that stand behind it.
fn write_block(n: usize, i: usize, sets: &[u8], numbers: &[u64], sheet: &mut [u8])
    requires few { n ≤ 600 }
    requires rows { i ≤ 601 }
    requires bits { (i + 1) * row_bytes n ≤ length sets.now }
    requires parts { 2 * ((i - 1) * n) ≤ length numbers.now }
    requires room { row_at n (i + 1) ≤ length sheet.old }
    ensures members { RowWritten n sets.now sheet.new i }
    ensures parts { 2 ≤ i → NumbersWritten n numbers.now sheet.new i }
    ensures rest { OnlyRow n i sheet.old sheet.new }
{
    let len = n.div_ceil(8);
    let at = row_at(n, i);
    write_row(n, sets, i * len, sheet, at);
    if i >= 2 {
        let from = 2 * ((i - 2) * n);
        write_numbers(&numbers[from..from + 2 * n], sheet, at + len);
    }
}

// How many bytes the certificate of a choice takes: two rows, and for each size up to `size` a row and its numbers.
pub fn sheet_length(n: usize, size: usize) -> usize
    requires { (n ≤ 600) × (size ≤ 600) }
    ensures { result ≡ row_at n (size + 2) }
{
    row_at(n, size + 2)
}

// Writes the certificate of a choice of n offers to the front of the lent bytes: the rows of the largest set and its dual
// set, then for each size up to `size` its row and its numbers, the low byte first. What stands behind is as it was.
pub fn write_sheet(n: usize, size: usize, sets: &[u8], numbers: &[u64], sheet: &mut [u8])
    requires few { n ≤ 600 }
    requires most { size ≤ n }
    requires bits { (size + 2) * row_bytes n ≤ length sets.now }
    requires parts { 2 * (size * n) ≤ length numbers.now }
    requires room { row_at n (size + 2) ≤ length sheet.old }
    ensures written { Written n sets.now numbers.now sheet.new (size + 2) }
    ensures behind { (p : ℕ) → row_at n (size + 2) ≤ p → slice_index sheet.new p ≡ slice_index sheet.old p }
{
    for i in 0..size + 2 {
        write_block(n, i, sets, numbers, sheet);
    }
}

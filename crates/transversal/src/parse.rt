// Reads a rule of volunteers from a file.
ghost use Rattle.std.specs.Prelude.{◌≡◌, ◌+◌, ◌≤◌, length};
ghost use Rattle.sets.specs.Bits.{row_bytes};
ghost use Rattle.transversal.specs.Reading.{read, read_rows, stray};

use sets::bits::contains;
use sets::numbers;
use sets::refusal::{Refusal, Source};

// Has the row at byte `row` a bit behind the last offer?
fn has_stray_bit(file: &[u8], n: usize, row: usize) -> bool
    requires few { n ≤ 600 }
    requires within { row + row_bytes n ≤ length file.now }
    ensures { result ≡ stray file.now n row }
{
    (n..8 * n.div_ceil(8)).any(|i| contains(file, row, i))
}

// Are the rows of all volunteers there, from byte `at` on, and none with a bit behind the last offer?
fn read_rows(file: &[u8], n: usize, volunteers: usize, at: usize) -> Result<usize, Refusal>
    requires offers { (1 ≤ n) × (n ≤ 600) }
    requires place { at ≤ length file.now }
    ensures { result ≡ read_rows file.now n volunteers volunteers at }
{
    let bytes = n.div_ceil(8);
    for v in 0..volunteers {
        let row = at + v * bytes;
        if file.len() - row < bytes {
            return Err(Refusal::Length(Source::Offers, file.len()));
        }
        if has_stray_bit(file, n, row) {
            return Err(Refusal::Range(Source::Offers, row + bytes - 1));
        }
    }
    Ok(volunteers)
}

// Reads the rule at p: how many volunteers it has, if all of it is as it should be.
pub fn read(file: &[u8], n: usize, p: usize) -> Result<usize, Refusal>
    requires { (1 ≤ n) × ((n ≤ 600) × (p ≤ length file.now)) }
    ensures { result ≡ read file.now n p }
{
    if file.len() - p < 2 {
        return Err(Refusal::Length(Source::Offers, file.len()));
    }
    let volunteers = numbers::read::<2>(file, p) as usize;
    if volunteers > 600 {
        return Err(Refusal::Range(Source::Offers, p));
    }
    read_rows(file, n, volunteers, p + 2)
}

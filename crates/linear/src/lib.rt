// Rows of numbers modulo a prime: a set of offers is allowed if no row of it is a sum of multiples of its other rows.
#![tactic(auto)]

ghost use Rattle.std.specs.Prelude.{◌≡◌, ◌+◌, ◌*◌, ◌<◌, ◌≤◌, length};
ghost use Rattle.linear.specs.Reading.{divisible, small_prime, read, read_numbers};

use sets::refusal::{Refusal, Source};

mod basis;
mod rows;
pub mod theory;
mod vectors;

pub use rows::Rows;

// What stands in front of the rows: the prime, and how many numbers a row has.
#[derive(Clone, Copy)]
pub struct Shape {
    pub prime: u64,
    pub len: usize,
}

// Does a number between 1 and p divide p?
fn has_divisor(p: u64) -> bool
    ensures { result ≡ divisible p }
{
    (2..p).any(|d| p % d == 0)
}

// Is p a prime from 2 to 251?
fn is_prime(p: u64) -> bool
    ensures { result ≡ small_prime p }
{
    1 < p && p <= 251 && !has_divisor(p)
}

// Are the next `count` numbers there, from `at` on, and each below the prime?
fn check_numbers(file: &[u8], shape: Shape, count: usize, at: usize) -> Result<Shape, Refusal>
    requires within { at ≤ length file.now }
    requires few { count ≤ 38400 }
    ensures { result ≡ read_numbers file.now shape count at }
{
    for place in at..at + count {
        if place == file.len() {
            return Err(Refusal::Length(Source::Offers, file.len()));
        }
        if file[place] as u64 >= shape.prime {
            return Err(Refusal::Row(place));
        }
    }
    Ok(shape)
}

// Reads the rule at the place p: its prime and its length, if all of it is as it should be.
pub fn read(file: &[u8], n: usize, p: usize) -> Result<Shape, Refusal>
    requires { (n ≤ 600) × (p ≤ length file.now) }
    ensures { result ≡ read file.now n p }
{
    if p == file.len() {
        return Err(Refusal::Length(Source::Offers, file.len()));
    }
    let prime = file[p] as u64;
    if !is_prime(prime) {
        return Err(Refusal::Row(p));
    }
    if p + 1 == file.len() {
        return Err(Refusal::Length(Source::Offers, file.len()));
    }
    let len = file[p + 1] as usize;
    if len == 0 || len > 64 {
        return Err(Refusal::Row(p + 1));
    }
    check_numbers(file, Shape { prime, len }, n * len, p + 2)
}

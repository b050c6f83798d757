// Small rules of all four kinds over at most six offers, each with what it allows, worked out by trying everything.
use crate::{brute, build};
use std::alloc::AllocError;

// A rule, given by hand.
#[derive(Clone, Copy)]
pub enum Given {
    Limits(&'static [(u16, u8)]),
    Volunteers(&'static [u8]),
    Links(u16, &'static [(u16, u16)]),
    Rows(u8, u8, &'static [u8]),
}

// What a rule says of each set of six offers, a set being a number below 64.
#[derive(Drop)]
pub struct Table {
    pub allowed: [bool; 64],
}

impl Table {
    pub fn at(&self, set: u32) -> bool {
        self.allowed[(set % 64) as usize]
    }
}

// All combinations of n multiples below the prime, at most a hundred thousand.
fn combinations(prime: u8, n: u16) -> u32 {
    let mut all = 1u64;
    for _ in 0..n {
        all = all.wrapping_mul(u64::from(prime));
    }
    all.min(100_000) as u32
}

impl Given {
    // Is the set of the first n offers allowed?
    fn allows(self, n: u16, set: u8) -> bool {
        match self {
            Given::Limits(groups) => brute::within_limits(groups, set),
            Given::Volunteers(rows) => brute::matched(rows, set),
            Given::Links(towns, ends) => brute::ringless(ends, towns, set),
            Given::Rows(prime, length, numbers) => {
                brute::unrelated(numbers, prime, length as usize, set, combinations(prime, n))
            }
        }
    }

    pub fn table(self, n: u16) -> Table {
        let mut allowed = [false; 64];
        for set in 0..64u8 {
            if n >= 6 || set < (1 << (n % 6)) {
                allowed[set as usize] = self.allows(n, set);
            }
        }
        Table { allowed }
    }

    // Adds the rule to a file.
    pub fn write(self, file: &mut Vec<u8>) -> Result<(), AllocError> {
        match self {
            Given::Limits(groups) => build::limits(file, groups),
            Given::Volunteers(rows) => build::volunteers(file, rows),
            Given::Links(towns, ends) => build::links(file, towns, ends),
            Given::Rows(prime, length, numbers) => build::rows(file, prime, length, numbers),
        }
    }
}

// Rules over six offers: twelve of each kind.
pub static SIX: [Given; 48] = [
    Given::Limits(&[]),
    Given::Limits(&[(1, 0b000011)]),
    Given::Limits(&[(0, 0b000001)]),
    Given::Limits(&[(2, 0b111111)]),
    Given::Limits(&[(0, 0)]),
    Given::Limits(&[(3, 0b111111), (2, 0b001111), (1, 0b000011)]),
    Given::Limits(&[(1, 0b000111), (1, 0b111000)]),
    Given::Limits(&[(600, 0b111111)]),
    Given::Limits(&[(2, 0b111100), (1, 0b110000), (1, 0b001100)]),
    Given::Limits(&[(1, 0b000001), (0, 0b000010), (1, 0b000100)]),
    Given::Limits(&[(3, 0b011111), (2, 0b011111)]),
    Given::Limits(&[(0, 0b111111)]),
    Given::Volunteers(&[]),
    Given::Volunteers(&[0b111111]),
    Given::Volunteers(&[0b000001, 0b000001]),
    Given::Volunteers(&[0b000011, 0b000011]),
    Given::Volunteers(&[0b000001, 0b000011, 0b000110, 0b001100]),
    Given::Volunteers(&[0b010101, 0b101010]),
    Given::Volunteers(&[0]),
    Given::Volunteers(&[0b111111, 0b111111, 0b111111]),
    Given::Volunteers(&[0b000011, 0b000110, 0b001100, 0b011000, 0b110000]),
    Given::Volunteers(&[0b100001, 0b000001]),
    Given::Volunteers(&[0b111000, 0b000111, 0b001100]),
    Given::Volunteers(&[0b000001, 0b000010, 0b000100, 0b001000, 0b010000, 0b100000]),
    Given::Links(1, &[(0, 0), (0, 0), (0, 0), (0, 0), (0, 0), (0, 0)]),
    Given::Links(2, &[(0, 1), (1, 0), (0, 1), (0, 0), (1, 1), (0, 1)]),
    Given::Links(3, &[(0, 1), (1, 2), (2, 0), (0, 1), (1, 2), (2, 2)]),
    Given::Links(4, &[(0, 1), (0, 2), (0, 3), (1, 2), (2, 3), (3, 1)]),
    Given::Links(6, &[(0, 1), (1, 2), (2, 0), (3, 4), (4, 5), (5, 3)]),
    Given::Links(7, &[(0, 1), (1, 2), (2, 3), (3, 4), (4, 5), (5, 6)]),
    Given::Links(7, &[(6, 0), (6, 1), (6, 2), (6, 3), (6, 4), (6, 5)]),
    Given::Links(4, &[(0, 1), (1, 2), (2, 3), (3, 0), (0, 2), (1, 3)]),
    Given::Links(5, &[(0, 1), (0, 1), (2, 3), (3, 2), (4, 4), (1, 2)]),
    Given::Links(
        600,
        &[(599, 0), (0, 300), (300, 599), (1, 2), (2, 1), (598, 597)],
    ),
    Given::Links(3, &[(2, 1), (2, 1), (1, 0), (1, 0), (0, 2), (0, 2)]),
    Given::Links(6, &[(0, 1), (2, 3), (4, 5), (1, 2), (3, 4), (5, 0)]),
    Given::Rows(2, 1, &[1, 1, 1, 0, 1, 0]),
    Given::Rows(2, 2, &[1, 0, 0, 1, 1, 1, 0, 0, 1, 0, 0, 1]),
    Given::Rows(
        2,
        3,
        &[1, 0, 0, 0, 1, 0, 0, 0, 1, 1, 1, 0, 0, 1, 1, 1, 1, 1],
    ),
    Given::Rows(3, 1, &[1, 2, 0, 1, 2, 2]),
    Given::Rows(3, 2, &[1, 0, 2, 0, 0, 1, 0, 2, 1, 1, 2, 2]),
    Given::Rows(3, 2, &[1, 1, 1, 2, 2, 1, 0, 0, 1, 0, 0, 2]),
    Given::Rows(
        3,
        3,
        &[1, 0, 2, 2, 0, 1, 0, 1, 1, 1, 1, 0, 2, 2, 2, 0, 0, 1],
    ),
    Given::Rows(5, 2, &[1, 0, 0, 1, 1, 1, 1, 2, 1, 3, 1, 4]),
    Given::Rows(5, 1, &[4, 3, 2, 1, 0, 4]),
    Given::Rows(
        2,
        4,
        &[
            1, 1, 0, 0, 0, 1, 1, 0, 0, 0, 1, 1, 1, 0, 0, 1, 1, 0, 1, 0, 0, 0, 0, 1,
        ],
    ),
    Given::Rows(
        3,
        4,
        &[
            1, 0, 0, 0, 0, 2, 0, 0, 0, 0, 1, 0, 0, 0, 0, 2, 1, 2, 1, 2, 0, 0, 0, 0,
        ],
    ),
    Given::Rows(
        2,
        6,
        &[
            1, 0, 0, 0, 0, 1, 0, 1, 0, 0, 0, 1, 0, 0, 1, 0, 0, 1, 0, 0, 0, 1, 0, 1, 0, 0, 0, 0, 1,
            1, 1, 1, 1, 1, 1, 1,
        ],
    ),
];

// Rules over two offers, for the largest prime and the longest rows.
pub static TWO: [Given; 4] = [
    Given::Rows(251, 1, &[250, 1]),
    Given::Rows(251, 2, &[2, 3, 4, 6]),
    Given::Rows(251, 2, &[250, 7, 125, 129]),
    Given::Rows(
        2,
        64,
        &[
            1, 0, 1, 0, 1, 0, 1, 0, 1, 0, 1, 0, 1, 0, 1, 0, 1, 0, 1, 0, 1, 0, 1, 0, 1, 0, 1, 0, 1,
            0, 1, 0, 1, 0, 1, 0, 1, 0, 1, 0, 1, 0, 1, 0, 1, 0, 1, 0, 1, 0, 1, 0, 1, 0, 1, 0, 1, 0,
            1, 0, 1, 0, 1, 0, 1, 0, 1, 0, 1, 0, 1, 0, 1, 0, 1, 0, 1, 0, 1, 0, 1, 0, 1, 0, 1, 0, 1,
            0, 1, 0, 1, 0, 1, 0, 1, 0, 1, 0, 1, 0, 1, 0, 1, 0, 1, 0, 1, 0, 1, 0, 1, 0, 1, 0, 1, 0,
            1, 0, 1, 0, 1, 0, 1, 0, 1, 0, 1, 1,
        ],
    ),
];

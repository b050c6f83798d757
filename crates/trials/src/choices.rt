// Choices beside all sets, tried one by one: files of six offers for all sixteen pairs of kinds, each certificate checked, and
// checked again with one bit changed.
use crate::cases::{Given, Table};
use crate::tally::Tally;
use crate::{build, cases};
use certificate::check;
use std::alloc::AllocError;
use std::io;
use weighted::choose;

// Weights with ties and zeros.
const WEIGHTS: [u32; 8] = [0, 1, 1, 2, 3, 5, 8, 1_000_000];

// Numbers that look as if by chance, always the same.
#[derive(Drop)]
struct Dice(u64);

impl Dice {
    fn roll(&mut self, below: u64) -> u64 {
        self.0 = self
            .0
            .wrapping_mul(6_364_136_223_846_793_005)
            .wrapping_add(1_442_695_040_888_963_407);
        if below == 0 {
            0
        } else {
            (self.0 >> 33) % below
        }
    }

    fn weight(&mut self) -> u32 {
        WEIGHTS[(self.roll(8) % 8) as usize]
    }
}

// Is offer i in a set of six?
fn has(set: u32, i: usize) -> bool {
    i < 6 && (set >> (i % 6)) & 1 == 1
}

// What a set of six offers weighs.
fn weight(weights: &[u32; 6], set: u32) -> u64 {
    weights
        .iter()
        .enumerate()
        .filter(|(i, _)| has(set, *i))
        .fold(0u64, |sum, (_, w)| sum.saturating_add(u64::from(*w)))
}

// The weight of a heaviest set of so many offers that both rules allow, among all sets.
fn heaviest(first: &Table, second: &Table, weights: &[u32; 6], size: u32) -> Option<u64> {
    (0..64u32)
        .filter(|set| set.count_ones() == size && first.at(*set) && second.at(*set))
        .map(|set| weight(weights, set))
        .max()
}

// The set of six offers in a byte of the lent sets.
fn set_at(sets: &[u8], at: usize) -> u32 {
    u32::from(sets.get(at).copied().unwrap_or(0) & 63)
}

// The certificate's bytes, for six offers.
fn sheet(bytes: &mut Vec<u8>, size: usize, sets: &[u8], numbers: &[u64]) -> Result<(), AllocError> {
    bytes.clear();
    for row in sets.iter().take(2) {
        bytes.extend_from_slice(&[*row])?;
    }
    for (row, parts) in sets.iter().skip(2).zip(numbers.chunks(12)).take(size) {
        bytes.extend_from_slice(&[*row])?;
        for number in parts {
            bytes.extend_from_slice(&number.to_le_bytes())?;
        }
    }
    Ok(())
}

// All sizes of a choice, beside the heaviest sets of all.
fn compare(
    t: &mut Tally,
    first: &Table,
    second: &Table,
    weights: &[u32; 6],
    size: usize,
    sets: &[u8],
) {
    for k in 1..7u32 {
        let found = set_at(sets, k as usize + 1);
        t.count(match heaviest(first, second, weights, k) {
            Some(best) => {
                k as usize <= size && weight(weights, found) == best && found.count_ones() == k
            }
            None => size < k as usize,
        });
    }
}

// Changes one bit of a certificate, anywhere but in the dual set, of which there may be several.
fn damage(bytes: &mut Vec<u8>, dice: &mut Dice) {
    let length = bytes.len();
    let at = dice.roll(length as u64) as usize;
    let bit = (dice.roll(8) % 8) as u32;
    if at < bytes.len() && at != 1 && bit < 8 {
        bytes[at] ^= 1 << bit;
    } else if length > 0 {
        bytes[0] ^= 1;
    }
}

// One file: its choice, its certificate, and the certificate damaged.
fn one(
    rt: &HostRuntime,
    t: &mut Tally,
    dice: &mut Dice,
    first: Given,
    second: Given,
) -> io::Result<()> {
    let weights = [(); 6].map(|_| dice.weight());
    let mut file = build::offers(rt.alloc(), &weights)?;
    first.write(&mut file)?;
    second.write(&mut file)?;
    let mut sets = vec![in rt.alloc(); 255u8; 8]?;
    let mut numbers = vec![in rt.alloc(); 7u64; 72]?;
    let mut work = vec![in rt.alloc(); 1234u32; 20_000]?;
    let chosen = choose(
        &file,
        sets.as_mut_slice(),
        numbers.as_mut_slice(),
        work.as_mut_slice(),
    );
    let Ok(answer) = chosen else {
        t.count(false);
        return Ok(());
    };
    compare(
        t,
        &first.table(6),
        &second.table(6),
        &weights,
        answer.size,
        &sets,
    );
    let mut bytes = Vec::new(rt.alloc());
    sheet(&mut bytes, answer.size, &sets, &numbers)?;
    t.count(check(&file, &bytes, work.as_mut_slice()).is_ok());
    damage(&mut bytes, dice);
    t.count(check(&file, &bytes, work.as_mut_slice()).is_err());
    Ok(())
}

// Every rule of six offers with some of each kind.
pub fn all(rt: &HostRuntime) -> io::Result<()> {
    let mut t = Tally::new();
    let mut dice = Dice(1);
    for first in &cases::SIX {
        for _ in 0..16 {
            let second = cases::SIX[(dice.roll(48) % 48) as usize];
            one(rt, &mut t, &mut dice, *first, second)?;
        }
    }
    t.show(rt, "choices")
}

// What each kind allows, worked out anew by trying everything, for at most eight offers. A set is a byte of bits.

fn has(set: u8, i: usize) -> bool {
    i < 8 && (set >> (i % 8)) & 1 == 1
}

// No more of any group than its limit.
pub fn within_limits(groups: &[(u16, u8)], set: u8) -> bool {
    groups.iter().all(|(limit, row)| (*row & set).count_ones() <= u32::from(*limit))
}

// How many volunteers can look after some offer of the set.
fn helpers(rows: &[u8], set: u8) -> usize {
    rows.iter().filter(|row| **row & set != 0).count()
}

// Every part of the set has at least as many volunteers as offers.
pub fn matched(rows: &[u8], set: u8) -> bool {
    (0..=255u8)
        .filter(|part| part & set == *part)
        .all(|part| part.count_ones() as usize <= helpers(rows, part))
}

// Does the set meet the town an even number of times? A link of a town with itself meets it twice.
fn meets_evenly(ends: &[(u16, u16)], set: u8, town: u16) -> bool {
    ends.iter().enumerate().fold(true, |even, (i, (from, to))| {
        even != (has(set, i) && (*from == town) != (*to == town))
    })
}

fn all_even(ends: &[(u16, u16)], set: u8, towns: u16) -> bool {
    (0..towns).all(|town| meets_evenly(ends, set, town))
}

// No part of the set, but the empty one, meets every town an even number of times.
pub fn ringless(ends: &[(u16, u16)], towns: u16, set: u8) -> bool {
    !(1..=255u8).any(|part| part & set == part && all_even(ends, part, towns))
}

// Whether a combination of the rows of the set is zero in a column. The multiple of offer i in it is its digit i in the base of the prime.
fn zero_at(
    numbers: &[u8],
    prime: u8,
    length: usize,
    column: usize,
    set: u8,
    combination: u32,
) -> bool {
    if prime == 0 {
        return false;
    }
    let base = u32::from(prime);
    let (_, sum) = (0..8usize).fold((combination, 0u32), |(left, sum), i| {
        let at = (i % 8) * length.min(64) + column.min(64);
        let number = numbers.get(at).copied().unwrap_or(0);
        let digit = if has(set, i) { left % base } else { 0 };
        (
            left / base,
            sum.wrapping_add(digit.wrapping_mul(u32::from(number))),
        )
    });
    sum % base == 0
}

fn vanishes(numbers: &[u8], prime: u8, length: usize, set: u8, combination: u32) -> bool {
    (0..length).all(|column| zero_at(numbers, prime, length, column, set, combination))
}

// Whether a combination has a multiple other than 0 at an offer outside of the set: its digits, the lowest first.
fn strays(prime: u8, set: u8, combination: u32) -> bool {
    if prime == 0 {
        return false;
    }
    let base = u32::from(prime);
    (0..8usize)
        .try_fold(combination, |left, i| {
            let digit = left % base;
            (digit == 0 || has(set, i)).then_some(left / base)
        })
        .is_none()
}

// No combination of the rows of the set, but the one of zeros, vanishes. There are `combinations` of them.
pub fn unrelated(numbers: &[u8], prime: u8, length: usize, set: u8, combinations: u32) -> bool {
    !(1..combinations).any(|c| !strays(prime, set, c) && vanishes(numbers, prime, length, set, c))
}

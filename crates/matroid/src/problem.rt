// What a file of offers says: how many offers there are, what each weighs, and two rules.
ghost use Rattle.std.specs.Prelude.{◌≡◌, ℕ, ◌+◌, ◌*◌, ◌^◌, ◌<◌, ◌≤◌, length, MatchResult};
ghost use Rattle.sets.specs.Refusals.{First};
ghost use Rattle.matroid.specs.Problem.{rule_end, weight_of, Means};
ghost use Rattle.matroid.specs.Reading.{read_weight, read_weights, read_rule, read_second, read_rules, read, Fault};

use crate::rule::{Kind, Rule};
use sets::numbers;
use sets::refusal::{Refusal, Source};

// How many offers there are, and the two rules. The weights begin at byte 2 of the file.
#[derive(Clone, Copy)]
pub struct Problem {
    pub n: usize,
    pub first: Rule,
    pub second: Rule,
}

// The weight of offer i.
pub fn weight(file: &[u8], i: usize) -> u32
    requires { 2 + 4 * i + 4 ≤ length file.now }
    ensures { result ≡ weight_of file.now i }
{
    numbers::read::<4>(file, 2 + 4 * i) as u32
}

// Is a weight there at `at`, of at most a million?
fn check_weight(file: &[u8], at: usize) -> Result<(), Refusal>
    requires { at ≤ length file.now }
    ensures { result ≡ read_weight file.now at }
{
    if file.len() - at < 4 {
        return Err(Refusal::Length(Source::Offers, file.len()));
    }
    if numbers::read::<4>(file, at) > 1_000_000 {
        return Err(Refusal::Weight(at));
    }
    Ok(())
}

// Are all weights there, and none above a million?
fn check_weights(file: &[u8], n: usize) -> Result<(), Refusal>
    requires { (n ≤ 600) × (2 ≤ length file.now) }
    ensures { result ≡ read_weights file.now n 2 }
{
    for i in 0..n {
        check_weight(file, 2 + 4 * i)?;
    }
    Ok(())
}

// Reads the rule whose kind is the byte at `place`.
pub fn read_rule(file: &[u8], n: usize, place: usize) -> Result<Rule, Refusal>
    requires { (1 ≤ n) × ((n ≤ 600) × (place ≤ length file.now)) }
    ensures { result ≡ read_rule file.now n place }
{
    if place == file.len() {
        return Err(Refusal::Length(Source::Offers, file.len()));
    }
    let Ok(kind) = Kind::try_from(file[place]) else {
        return Err(Refusal::Kind(place));
    };
    match kind {
        Kind::Limits => {
            let groups = laminar::read(file, n, place + 1)?;
            Ok(Rule::Limits {
                groups,
                at: place + 2,
            })
        }
        Kind::Volunteers => {
            let volunteers = transversal::read(file, n, place + 1)?;
            Ok(Rule::Volunteers {
                volunteers,
                at: place + 3,
            })
        }
        Kind::Links => {
            let towns = graphic::read(file, n, place + 1)?;
            Ok(Rule::Links {
                towns,
                at: place + 3,
            })
        }
        Kind::Rows => {
            let shape = linear::read(file, n, place + 1)?;
            Ok(Rule::Rows {
                prime: shape.prime,
                length: shape.len,
                at: place + 3,
            })
        }
    }
}

// Reads the second rule, behind the first, and sees that no byte is left over.
fn read_second(file: &[u8], n: usize, first: Rule) -> Result<Problem, Refusal>
    requires { (1 ≤ n) × ((n ≤ 600) × (rule_end n first ≤ length file.now)) }
    ensures { result ≡ read_second file.now n first }
{
    let second = read_rule(file, n, first.end(n))?;
    let end = second.end(n);
    if end < file.len() {
        return Err(Refusal::Length(Source::Offers, end));
    }
    Ok(Problem { n, first, second })
}

// Reads both rules, behind the weights.
fn read_rules(file: &[u8], n: usize) -> Result<Problem, Refusal>
    requires { (1 ≤ n) × ((n ≤ 600) × (2 + 4 * n ≤ length file.now)) }
    ensures { result ≡ read_rules file.now n }
{
    let first = read_rule(file, n, 2 + 4 * n)?;
    read_second(file, n, first)
}

// Reads the parts of a file in order.
fn read_parts(file: &[u8]) -> Result<Problem, Refusal>
    ensures { result ≡ read file.now }
{
    if file.len() < 2 {
        return Err(Refusal::Length(Source::Offers, file.len()));
    }
    let n = numbers::read::<2>(file, 0) as usize;
    if n == 0 || n > 600 {
        return Err(Refusal::Offers);
    }
    check_weights(file, n)?;
    read_rules(file, n)
}

// Reads a file of offers, whatever its bytes are: what it means, or the first of its faults.
pub fn read(file: &[u8]) -> Result<Problem, Refusal>
    ensures answer { result ≡ read file.now }
    ensures meaning { MatchResult result (λ problem. Means file.now problem) (λ e. First (Fault file.now) e) }
{
    read_parts(file)
}

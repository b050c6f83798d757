// The questions of every kind beside what the rule allows, for all sets of at most six offers.
ghost use Rattle.std.specs.Prelude.{◌≡◌, ℕ, ◌<◌, ◌≤◌, length};
ghost use Rattle.matroid.specs.Rules.{Well, kept_length};
ghost use Rattle.sets.specs.Bits.{marked};

use crate::cases::{Given, Table};
use crate::tally::Tally;
use crate::{build, cases};
use matroid::problem::read;
use matroid::{Offers, Oracle};
use std::io;

// Is x in the set?
fn holds(set: &[u32], x: usize) -> bool
    requires { (x < 32) × (1 ≤ length set.now) }
    ensures { result ≡ marked set.now x }
{
    sets::bits::contains(set, 0, x)
}

// All exchanges of an allowed set, for an x outside of it.
fn exchanges(
    t: &mut Tally,
    oracle: &Oracle,
    set: &[u32],
    state: &mut [u32],
    mask: u32,
    table: &Table,
)
    requires small { (1 ≤ oracle.now.n) × (oracle.now.n ≤ 6) }
    requires room { (length set.now ≡ 1) × (kept_length oracle.now.n ≤ length state.old) }
    requires well { Well oracle.now.file.now oracle.now.n oracle.now.rule }
{
    let allowed = oracle.independent(set, state);
    t.count(allowed == table.at(mask));
    if !allowed {
        return;
    }
    for x in 0..oracle.n {
        if !holds(set, x) {
            t.count(oracle.can_add(set, state, x) == table.at(mask | (1 << x)));
            for y in 0..oracle.n {
                if holds(set, y) {
                    let after = (mask & !(1 << y)) | (1 << x);
                    t.count(oracle.can_exchange(set, state, x, y) == table.at(after));
                }
            }
        }
    }
}

// All sets of n offers by one rule.
fn all_sets(t: &mut Tally, oracle: &Oracle, state: &mut [u32], table: &Table)
    requires small { (1 ≤ oracle.now.n) × (oracle.now.n ≤ 6) }
    requires room { kept_length oracle.now.n ≤ length state.old }
    requires well { Well oracle.now.file.now oracle.now.n oracle.now.rule }
{
    for mask in 0..(1u32 << oracle.n) {
        let set = [mask];
        exchanges(t, oracle, &set, state, mask, table);
    }
}

// Both rules of a file.
fn both_rules(t: &mut Tally, file: &[u8], state: &mut [u32], first: &Table, second: &Table)
    requires { kept_length 6 ≤ length state.old }
{
    let Ok(problem) = read(file) else {
        t.count(false);
        return;
    };
    if problem.n <= 6 {
        let offers = Offers { file, problem };
        all_sets(t, &offers.first(), state, first);
        all_sets(t, &offers.second(), state, second);
    }
}

// A file with the two rules, over n offers.
fn pair(rt: &HostRuntime, t: &mut Tally, n: u16, first: Given, second: Given) -> io::Result<()> {
    let mut file = build::equal_offers(rt.alloc(), n, 1)?;
    first.write(&mut file)?;
    second.write(&mut file)?;
    let mut state = vec![in rt.alloc(); 0u32; 2000]?;
    both_rules(
        t,
        &file,
        state.as_mut_slice(),
        &first.table(n),
        &second.table(n),
    );
    Ok(())
}

// Each rule once on either side.
pub fn all(rt: &HostRuntime) -> io::Result<()> {
    let mut t = Tally::new();
    for (i, rule) in cases::SIX.iter().enumerate() {
        pair(rt, &mut t, 6, *rule, cases::SIX[(i % 48 + 12) % 48])?;
    }
    for (i, rule) in cases::TWO.iter().enumerate() {
        pair(rt, &mut t, 2, *rule, cases::TWO[(i % 4 + 1) % 4])?;
    }
    t.show(rt, "kinds")
}

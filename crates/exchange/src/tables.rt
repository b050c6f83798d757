// The exchange tables of a round: every exchange asked once, and what can be added by either rule.
ghost use Rattle.std.specs.Prelude.{◌≡◌, ℕ, ◌+◌, ◌-◌, ◌*◌, ◌<◌, ◌≤◌, true, false, not, length, ◌≢◌};
ghost use Rattle.exchange.specs.Graph.{arc, addable, table, Tables};
ghost use Rattle.exchange.specs.Memory.{TablesFit, StatesFit, SameTables, SameStates};
ghost use Rattle.matroid.specs.Rules.{allows, Well, Ready};
ghost use Rattle.matroid.specs.TwoRules.{by_first, by_second, BothWell, BothKept};
ghost use Rattle.sets.specs.Bits.{marked, row_words};
ghost use Rattle.sets.specs.Matroid.{pick, size};

use crate::rows::{clear_row, holds, join, put};
use matroid::{Offers, Oracle, States};

// Does the rule allow that v and u, of which one is inside, change places?
fn exchanged(oracle: &Oracle, set: &[u32], state: &[u32], inside: bool, v: usize, u: usize) -> bool
    requires well { Well oracle.now.file.now oracle.now.n oracle.now.rule }
    requires whole { row_words oracle.now.n ≤ length set.now }
    requires ready { Ready oracle.now.file.now oracle.now.n oracle.now.rule (marked set.now) state.now }
    requires below { (v < oracle.now.n) × (u < oracle.now.n) }
    requires sides { (marked set.now v ≡ inside) × (marked set.now u ≡ not inside) }
    ensures { result ≡ arc (allows oracle.now.file.now oracle.now.n oracle.now.rule) (allows oracle.now.file.now oracle.now.n oracle.now.rule) (marked set.now) v u }
{
    if inside {
        oracle.can_exchange(set, state, u, v)
    } else {
        oracle.can_exchange(set, state, v, u)
    }
}

// The arcs from v by one rule: every exchange with v is asked once. Says how many were asked.
fn arcs_from(oracle: &Oracle, set: &[u32], state: &[u32], v: usize, arcs: &mut [u32]) -> u64
    requires well { Well oracle.now.file.now oracle.now.n oracle.now.rule }
    requires whole { row_words oracle.now.n ≤ length set.now }
    requires room { row_words oracle.now.n * oracle.now.n ≤ length arcs.old }
    requires ready { Ready oracle.now.file.now oracle.now.n oracle.now.rule (marked set.now) state.now }
    requires below { v < oracle.now.n }
    ensures row { (u : ℕ) → u < oracle.now.n → table oracle.now.n arcs.new v u ≡ arc (allows oracle.now.file.now oracle.now.n oracle.now.rule) (allows oracle.now.file.now oracle.now.n oracle.now.rule) (marked set.now) v u }
    ensures rest { (i u : ℕ) → i < oracle.now.n → u < oracle.now.n → i ≢ v → table oracle.now.n arcs.new i u ≡ table oracle.now.n arcs.old i u }
    ensures asked { result ≡ pick (marked set.now v) (oracle.now.n - size oracle.now.n (marked set.now)) (size oracle.now.n (marked set.now)) }
{
    // A copy of its own, which the writes to the table leave in registers.
    let oracle = *oracle;
    let inside = holds(set, v);
    let mut asked = 0;
    clear_row(arcs, oracle.n, v);
    for u in 0..oracle.n {
        if holds(set, u) != inside {
            asked += 1;
            if exchanged(&oracle, set, state, inside, v, u) {
                join(arcs, oracle.n, v, u);
            }
        }
    }
    asked
}

// The table of arcs, by the first rule from inside and by the second from outside. Says how many exchanges were asked.
fn all_arcs(offers: &Offers, set: &[u32], states: &States, arcs: &mut [u32]) -> u64
    requires whole { row_words offers.now.problem.n ≤ length set.now }
    requires room { row_words offers.now.problem.n * offers.now.problem.n ≤ length arcs.old }
    requires well { BothWell offers.now.file.now offers.now.problem }
    requires ready { BothKept offers.now.file.now offers.now.problem (marked set.now) (marked set.now) states.now.first.now states.now.second.now }
    ensures arcs { (v u : ℕ) → v < offers.now.problem.n → u < offers.now.problem.n → table offers.now.problem.n arcs.new v u ≡ arc (by_first offers.now.file.now offers.now.problem) (by_second offers.now.file.now offers.now.problem) (marked set.now) v u }
    ensures asked { result ≡ 2 * size offers.now.problem.n (marked set.now) * (offers.now.problem.n - size offers.now.problem.n (marked set.now)) }
{
    let first = offers.first();
    let second = offers.second();
    let mut asked = 0;
    for v in 0..offers.problem.n {
        if holds(set, v) {
            asked += arcs_from(&first, set, states.first, v, arcs);
        } else {
            asked += arcs_from(&second, set, states.second, v, arcs);
        }
    }
    asked
}

// The elements that the rule lets in.
fn addable_row(oracle: &Oracle, set: &[u32], state: &[u32], row: &mut [u32])
    requires well { Well oracle.now.file.now oracle.now.n oracle.now.rule }
    requires whole { row_words oracle.now.n ≤ length set.now }
    requires room { row_words oracle.now.n ≤ length row.old }
    requires ready { Ready oracle.now.file.now oracle.now.n oracle.now.rule (marked set.now) state.now }
    ensures { (x : ℕ) → x < oracle.now.n → marked row.new x ≡ addable (allows oracle.now.file.now oracle.now.n oracle.now.rule) (marked set.now) x }
{
    for x in 0..oracle.n {
        let there = !holds(set, x) && oracle.can_add(set, state, x);
        put(row, x, there);
    }
}

// The exchange tables of a round in lent words: a row of bits for each element's arcs, and a row each for the sources and the sinks.
#[derive(Drop)]
pub struct ExchangeTables<'a> {
    pub arcs: &'a mut [u32],
    pub sources: &'a mut [u32],
    pub sinks: &'a mut [u32],
}

impl ExchangeTables<'_> {
    // Asks what is kept of the set for the arcs, the sources and the sinks. Says how many exchanges were asked.
    fn ask(&mut self, offers: &Offers, set: &[u32], states: &States) -> u64
        requires whole { row_words offers.now.problem.n ≤ length set.now }
        requires room { TablesFit offers.now.problem.n self.old }
        requires well { BothWell offers.now.file.now offers.now.problem }
        requires ready { BothKept offers.now.file.now offers.now.problem (marked set.now) (marked set.now) states.now.first.now states.now.second.now }
        ensures room { TablesFit offers.now.problem.n self.new }
        ensures memory { SameTables self.old self.new }
        ensures holds { Tables offers.now.problem.n (by_first offers.now.file.now offers.now.problem) (by_second offers.now.file.now offers.now.problem) (marked set.now) self.new.arcs.now self.new.sources.now self.new.sinks.now }
        ensures asked { result ≡ 2 * size offers.now.problem.n (marked set.now) * (offers.now.problem.n - size offers.now.problem.n (marked set.now)) }
    {
        addable_row(&offers.first(), set, states.first, self.sources);
        addable_row(&offers.second(), set, states.second, self.sinks);
        all_arcs(offers, set, states, self.arcs)
    }

    // Fills the tables: the arcs, the sources and the sinks. Says how many exchanges were asked.
    // The kept states are those of the set after; they are what `independent` leaves.
    pub fn fill(&mut self, offers: &Offers, set: &[u32], states: &mut States) -> u64
        requires whole { row_words offers.now.problem.n ≤ length set.now }
        requires room { TablesFit offers.now.problem.n self.old }
        requires states { StatesFit offers.now.problem.n states.old }
        requires well { BothWell offers.now.file.now offers.now.problem }
        requires allowed { (by_first offers.now.file.now offers.now.problem (marked set.now) ≡ true) × (by_second offers.now.file.now offers.now.problem (marked set.now) ≡ true) }
        ensures room { TablesFit offers.now.problem.n self.new }
        ensures memory { SameTables self.old self.new }
        ensures states { StatesFit offers.now.problem.n states.new }
        ensures states_memory { SameStates states.old states.new }
        ensures holds { Tables offers.now.problem.n (by_first offers.now.file.now offers.now.problem) (by_second offers.now.file.now offers.now.problem) (marked set.now) self.new.arcs.now self.new.sources.now self.new.sinks.now }
        ensures asked { result ≡ 2 * size offers.now.problem.n (marked set.now) * (offers.now.problem.n - size offers.now.problem.n (marked set.now)) }
        ensures kept { BothKept offers.now.file.now offers.now.problem (marked set.now) (marked set.now) states.new.first.now states.new.second.now }
    {
        offers.first().independent(set, states.first);
        offers.second().independent(set, states.second);
        self.ask(offers, set, states)
    }
}

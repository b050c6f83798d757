// The questions by which a rule is used, each a match on its kind.
ghost use Rattle.std.specs.Prelude.{◌≡◌, ℕ, ◌<◌, ◌≤◌, true, false, length};
ghost use Rattle.matroid.specs.Rules.{allows, Well, Ready, kept_length};
ghost use Rattle.sets.specs.Bits.{marked, row_words};
ghost use Rattle.sets.specs.Matroid.{with, without};

use crate::rule::Rule;
use graphic::Links;
use laminar::Limits;
use linear::Rows;
use transversal::Volunteers;

// How many words are kept for a set of n offers.
pub fn kept_length(n: usize) -> usize
    requires { n ≤ 600 }
    ensures { result ≡ kept_length n }
{
    600 + 65 * n + (n + 601) * n.div_ceil(32)
}

// An independence oracle: a rule as it stands in a file of n offers. The kinds are four and stay four, so they are an enum.
// That the rule is well-formed stands in clauses and not here: of limits it is no fact that has one proof at most.
#[derive(Clone, Copy)]
pub struct Oracle<'a> {
    pub file: &'a [u8],
    pub n: usize,
    pub rule: Rule,
    ghost few: { n ≤ 600 },
}

impl Oracle<'_> {
    // Is the set allowed? Where it is, `state` afterwards holds what is kept for this set; where it is not, what `state` holds is free.
    // A bool and no Option, since what is kept lies in lent memory.
    pub fn independent(&self, set: &[u32], state: &mut [u32]) -> bool
        requires well { Well self.now.file.now self.now.n self.now.rule }
        requires whole { row_words self.now.n ≤ length set.now }
        requires room { kept_length self.now.n ≤ length state.old }
        ensures answers { result ≡ allows self.now.file.now self.now.n self.now.rule (marked set.now) }
        ensures kept { result ≡ true → Ready self.now.file.now self.now.n self.now.rule (marked set.now) state.new }
    {
        let Oracle { file, n, rule } = *self;
        match rule {
            Rule::Limits { groups, at } => {
                let limits = Limits {
                    file,
                    n,
                    groups,
                    at,
                };
                limits.independent(set, state)
            }
            Rule::Volunteers { volunteers, at } => {
                let volunteers = Volunteers {
                    file,
                    n,
                    volunteers,
                    at,
                };
                volunteers.independent(set, state)
            }
            Rule::Links { towns, at } => {
                let links = Links { file, n, towns, at };
                links.independent(set, state)
            }
            Rule::Rows {
                prime,
                length: len,
                at,
            } => {
                let rows = Rows {
                    file,
                    n,
                    prime,
                    len,
                    at,
                };
                rows.independent(set, state)
            }
        }
    }

    // Is the set with x allowed, for an x outside of it?
    pub fn can_add(&self, set: &[u32], state: &[u32], x: usize) -> bool
        requires well { Well self.now.file.now self.now.n self.now.rule }
        requires whole { row_words self.now.n ≤ length set.now }
        requires ready { Ready self.now.file.now self.now.n self.now.rule (marked set.now) state.now }
        requires outside { (x < self.now.n) × (marked set.now x ≡ false) }
        ensures { result ≡ allows self.now.file.now self.now.n self.now.rule (with (marked set.now) x) }
    {
        let Oracle { file, n, rule } = *self;
        match rule {
            Rule::Limits { groups, at } => {
                let limits = Limits {
                    file,
                    n,
                    groups,
                    at,
                };
                limits.can_add(set, state, x)
            }
            Rule::Volunteers { volunteers, at } => {
                let volunteers = Volunteers {
                    file,
                    n,
                    volunteers,
                    at,
                };
                volunteers.can_add(set, state, x)
            }
            Rule::Links { towns, at } => {
                let links = Links { file, n, towns, at };
                links.can_add(set, state, x)
            }
            Rule::Rows {
                prime,
                length: len,
                at,
            } => {
                let rows = Rows {
                    file,
                    n,
                    prime,
                    len,
                    at,
                };
                rows.can_add(set, state, x)
            }
        }
    }

    // Is the set with x in the place of y allowed, for an x outside and a y inside?
    pub fn can_exchange(&self, set: &[u32], state: &[u32], x: usize, y: usize) -> bool
        requires well { Well self.now.file.now self.now.n self.now.rule }
        requires whole { row_words self.now.n ≤ length set.now }
        requires ready { Ready self.now.file.now self.now.n self.now.rule (marked set.now) state.now }
        requires outside { (x < self.now.n) × (marked set.now x ≡ false) }
        requires inside { (y < self.now.n) × (marked set.now y ≡ true) }
        ensures { result ≡ allows self.now.file.now self.now.n self.now.rule (with (without (marked set.now) y) x) }
    {
        let Oracle { file, n, rule } = *self;
        match rule {
            Rule::Limits { groups, at } => {
                let limits = Limits {
                    file,
                    n,
                    groups,
                    at,
                };
                limits.can_exchange(set, state, x, y)
            }
            Rule::Volunteers { volunteers, at } => {
                let volunteers = Volunteers {
                    file,
                    n,
                    volunteers,
                    at,
                };
                volunteers.can_exchange(set, state, x, y)
            }
            Rule::Links { towns, at } => {
                let links = Links { file, n, towns, at };
                links.can_exchange(set, state, x, y)
            }
            Rule::Rows {
                prime,
                length: len,
                at,
            } => {
                let rows = Rows {
                    file,
                    n,
                    prime,
                    len,
                    at,
                };
                rows.can_exchange(set, state, x, y)
            }
        }
    }
}

// A file of offers together with what it says, and what is kept of a set by both of its rules.
ghost use Rattle.std.specs.Prelude.{◌≡◌, ℕ, ◌+◌, ◌*◌, ◌<◌, ◌≤◌, length};
ghost use Rattle.matroid.specs.Problem.{weight_of};

use crate::oracle::Oracle;
use crate::problem::{Problem, weight};

// A file of offers, and the problem that it means.
#[derive(Clone, Copy)]
pub struct Offers<'a> {
    pub file: &'a [u8],
    pub problem: Problem,
    ghost few: { problem.n ≤ 600 },
}

impl<'a> Offers<'a> {
    // The weight of offer i.
    pub fn weight(&self, i: usize) -> u32
        requires { 2 + 4 * i + 4 ≤ length self.now.file.now }
        ensures { result ≡ weight_of self.now.file.now i }
    {
        weight(self.file, i)
    }

    // The first rule.
    pub fn first(&self) -> Oracle<'a>
        ensures file { result.file.now ≡ self.now.file.now }
        ensures count { result.n ≡ self.now.problem.n }
        ensures rule { result.rule ≡ self.now.problem.first }
    {
        Oracle {
            file: self.file,
            n: self.problem.n,
            rule: self.problem.first,
        }
    }

    // The second rule. Two functions and no parameter, since each call means one of them.
    pub fn second(&self) -> Oracle<'a>
        ensures file { result.file.now ≡ self.now.file.now }
        ensures count { result.n ≡ self.now.problem.n }
        ensures rule { result.rule ≡ self.now.problem.second }
    {
        Oracle {
            file: self.file,
            n: self.problem.n,
            rule: self.problem.second,
        }
    }
}

// The lent words in which something is kept of a set by the first rule, and of a set by the second.
#[derive(Drop)]
pub struct States<'a> {
    pub first: &'a mut [u32],
    pub second: &'a mut [u32],
}

// Counts of cases that came out as they should, and of those that did not.
use std::io;

#[derive(Drop)]
pub struct Tally {
    pub good: usize,
    pub bad: usize,
}

impl Tally {
    pub fn new() -> Self {
        Tally { good: 0, bad: 0 }
    }

    // Counts a case; a wrong one is named.
    pub fn note(&mut self, rt: &impl Print, name: &str, right: bool) -> io::Result<()> {
        if right {
            self.good = self.good.saturating_add(1);
            return Ok(());
        }
        self.bad = self.bad.saturating_add(1);
        println!(rt; "wrong: {name}")
    }

    // Counts a case that has no name.
    pub fn count(&mut self, right: bool) {
        if right {
            self.good = self.good.saturating_add(1);
        } else {
            self.bad = self.bad.saturating_add(1);
        }
    }

    // A line with both counts.
    pub fn show(&self, rt: &impl Print, name: &str) -> io::Result<()> {
        let good = self.good;
        let bad = self.bad;
        println!(rt; "{name}: {good} right, {bad} wrong")
    }
}

// What is printed of a choice.
use sets::{bits, numbers};
use std::fmt;

// A choice from a file of n offers: its largest size, and the rows of its sets.
#[derive(Clone, Copy)]
pub struct Report<'a, 'b> {
    pub file: &'a [u8],
    pub n: usize,
    pub size: usize,
    pub sets: &'b [u8],
}

impl Report<'_, '_> {
    // Is offer i in the set whose row begins at byte `at`? Nothing is, past the end of the bytes.
    fn holds(&self, at: usize, i: usize) -> bool {
        at < 1_000_000
            && i < 1000
            && at + i / 8 < self.sets.len()
            && bits::contains(self.sets, at, i)
    }

    // The weight of offer i.
    fn weight(&self, i: usize) -> u64 {
        if i < 1000 && 4 * i + 6 <= self.file.len() {
            return numbers::read::<4>(self.file, 2 + 4 * i);
        }
        0
    }

    // What the set whose row begins at byte `at` weighs.
    fn total(&self, at: usize) -> u64 {
        (0..self.n)
            .filter(|i| self.holds(at, *i))
            .fold(0u64, |sum, i| sum.saturating_add(self.weight(i)))
    }

    // A line with a set's offers, or `none`.
    fn list<W: fmt::Write>(&self, f: &mut fmt::Formatter<W>, name: &str, at: usize) -> fmt::Result {
        write!(f, "{name}")?;
        let mut empty = true;
        for i in 0..self.n {
            if self.holds(at, i) {
                write!(f, " {i}")?;
                empty = false;
            }
        }
        if empty {
            write!(f, " none")?;
        }
        writeln!(f, "")
    }
}

// The weight of each size, a largest set, and its dual set.
impl fmt::Display for Report<'_, '_> {
    fn fmt<W: fmt::Write>(&self, f: &mut fmt::Formatter<W>) -> fmt::Result {
        let row = self.n.min(600).div_ceil(8);
        for j in 0..self.size.min(600) {
            let k = j + 1;
            let sum = self.total((j + 2) * row);
            writeln!(f, "size {k} weight {sum}")?;
        }
        self.list(f, "chosen", 0)?;
        self.list(f, "u", row)
    }
}

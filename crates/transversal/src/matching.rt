// Offers and their volunteers: a matching that changes along exchanges.
ghost use Rattle.std.specs.Prelude.{◌≡◌, ℕ, ◌<◌, ◌≤◌, true, false, length, MatchOption};
ghost use Rattle.sets.specs.Bits.{marked, row_words};
ghost use Rattle.sets.specs.Matroid.{with};
ghost use Rattle.transversal.specs.Volunteers.{Tends};
ghost use Rattle.transversal.specs.Pairs.{named, by_rows, matched, Holds, Hands, Stuck};

use crate::reach::Reach;
use crate::rows::Rows;
use sets::bits::contains;

// Who looks after whom: the volunteer of each offer, and the offer of each volunteer.
#[derive(Drop)]
pub(crate) struct Matching {
    pub tends: [Option<u16>; 600],
    pub owner: [Option<u16>; 600],
}

impl Matching {
    // Gives each offer of the set a volunteer of its own, if that can be.
    pub(crate) fn of(rows: &Rows, set: &[u32]) -> Option<Matching>
        requires { row_words rows.now.n ≤ length set.now }
        ensures { MatchOption result
            ((f : ℕ → ℕ) → Tends (by_rows rows.now.words.now rows.now.n) rows.now.n rows.now.volunteers (marked set.now) f → ⊥)
            (λ m. Holds rows.now.words.now rows.now.n rows.now.volunteers m.tends m.owner × ((u : ℕ) → u < rows.now.n → matched rows.now.volunteers (named m.tends) u ≡ marked set.now u)) }
    {
        let mut matching = Matching {
            tends: [None; 600],
            owner: [None; 600],
        };
        for x in 0..rows.n {
            if contains(set, 0, x) && !matching.place(rows, x) {
                return None;
            }
        }
        Some(matching)
    }

    // Gives offer x a volunteer: a free one, or one whom other offers hand on. Where that cannot be the answer is false.
    fn place(&mut self, rows: &Rows, x: usize) -> bool
        requires offer { x < rows.now.n }
        requires holds { Holds rows.now.words.now rows.now.n rows.now.volunteers self.old.tends self.old.owner }
        requires single { rows.now.volunteers ≤ named self.old.tends x }
        ensures holds { result ≡ true → Holds rows.now.words.now rows.now.n rows.now.volunteers self.new.tends self.new.owner }
        ensures more { result ≡ true → (u : ℕ) → u < rows.now.n → matched rows.now.volunteers (named self.new.tends) u ≡ with (matched rows.now.volunteers (named self.old.tends)) x u }
        ensures stuck { result ≡ false → Stuck (by_rows rows.now.words.now rows.now.n) rows.now.n rows.now.volunteers (named self.old.tends) (named self.old.owner) x }
    {
        if let Some(v) = self.free_for(rows, x) {
            self.owner[v] = Some(x as u16);
            self.tends[x] = Some(v as u16);
            return true;
        }
        let Some(reach) = Reach::to(rows, self, x) else {
            return false;
        };
        // x takes the volunteer that the queue has for it, the offer that had it takes its own, and so on to a free volunteer
        let mut y = x;
        loop {
            let v = reach.queue[reach.via[y] as usize];
            let before = self.owner[v as usize];
            self.owner[v as usize] = Some(y as u16);
            self.tends[y] = Some(v);
            let Some(z) = before else {
                return true;
            };
            self.tends[z as usize] = None;
            y = z as usize;
        }
    }

    // A free volunteer who can look after offer x, if there is one.
    fn free_for(&self, rows: &Rows, x: usize) -> Option<usize>
        requires { x < rows.now.n }
        ensures { Hands (by_rows rows.now.words.now rows.now.n) rows.now.n rows.now.volunteers (named self.now.owner) x result }
    {
        (0..rows.volunteers).find(|&v| self.owner[v].is_none() && rows.can_tend(v, x))
    }
}

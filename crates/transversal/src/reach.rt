// From which offers a free volunteer is come to.
ghost use Rattle.std.specs.Prelude.{◌≡◌, ℕ, ◌+◌, ◌<◌, false, MatchOption, All, IfSome, slice_set};
ghost use Rattle.sets.specs.Bits.{word_row};
ghost use Rattle.transversal.specs.Pairs.{at, named, by_rows, Holds, Queued, Leads, Stuck};

use crate::matching::Matching;
use crate::rows::Rows;
use sets::bits::insert;

// Offers that are come to, and a queue of volunteers: first the free ones, then those of the offers.
#[derive(Drop)]
pub(crate) struct Reach {
    pub reached: [u32; 19],
    // The place in the queue of the volunteer whom an offer takes.
    pub via: [u16; 600],
    pub queue: [u16; 1200],
    pub len: usize,
}

impl Reach {
    // Puts volunteer v behind the others.
    fn push(&mut self, v: u16)
        requires { self.old.len < 1200 }
        ensures { self.new ≡ record self.old { queue = slice_set self.old.queue self.old.len v; len = self.old.len + 1 } }
    {
        self.queue[self.len] = v;
        self.len += 1;
    }

    // No offer is come to, and the free volunteers are in the queue.
    fn start(rows: &Rows, matching: &Matching) -> Reach
        requires { All (λ o. IfSome o (λ x. x < rows.now.n)) matching.now.owner }
        ensures queue { Queued rows.now.n rows.now.volunteers (named matching.now.owner) (at result.queue) result.len }
        ensures reached { (y : ℕ) → y < rows.now.n → word_row result.reached 0 y ≡ false }
    {
        let mut reach = Reach {
            reached: [0; 19],
            via: [0; 600],
            queue: [0; 1200],
            len: 0,
        };
        for v in 0..rows.volunteers {
            if matching.owner[v].is_none() {
                reach.push(v as u16);
            }
        }
        reach
    }

    // Is a free volunteer come to from offer x? Then the queue leads there.
    pub(crate) fn to(rows: &Rows, matching: &Matching, x: usize) -> Option<Reach>
        requires offer { x < rows.now.n }
        requires holds { Holds rows.now.words.now rows.now.n rows.now.volunteers matching.now.tends matching.now.owner }
        ensures { MatchOption result
            (Stuck (by_rows rows.now.words.now rows.now.n) rows.now.n rows.now.volunteers (named matching.now.tends) (named matching.now.owner) x)
            (λ r. Leads (by_rows rows.now.words.now rows.now.n) rows.now.n rows.now.volunteers (named matching.now.owner) (at r.queue) (at r.via) x) }
    {
        let mut reach = Reach::start(rows, matching);
        let mut head = 0;
        // No `for`: the queue grows meanwhile, and `via` names places in it.
        while head < reach.len {
            let v = reach.queue[head] as usize;
            if let Some(y) = rows.fresh(v, &reach.reached) {
                insert(&mut reach.reached, 0, y);
                reach.via[y] = head as u16;
                if y == x {
                    return Some(reach);
                }
                if let Some(next) = matching.tends[y] {
                    reach.push(next);
                }
            } else {
                head += 1;
            }
        }
        None
    }
}

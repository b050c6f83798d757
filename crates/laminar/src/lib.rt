// Rules of limits: nested groups of offers, each with the most that a set may have of it.
// In the file a rule is a byte that says how many groups there are, and then the groups: two bytes for the limit, the low
// byte first, and a row of bits, bit i for offer i.
#![tactic(auto)]

ghost use Rattle.std.specs.Prelude.{◌≡◌, ℕ, ◌+◌, ◌-◌, ◌*◌, ◌/◌, ◌%◌, ◌^◌, ◌<◌, ◌≤◌, true, false, min, length, ◌==◌, slice_index};
ghost use Rattle.sets.specs.Bits.{row, row_bytes, row_words, word_row, marked};
ghost use Rattle.sets.specs.Matroid.{size, both, outside, with, without};
ghost use Rattle.laminar.specs.Limits.{group_bytes, group_at, limit, in_group, allows, kept_length, Well, Ready, Marked, ReadingAgrees, LimitsMatroid};
ghost use Rattle.laminar.specs.Reading.{read, read_group, overlaps, overlaps_below, has_stray, some, ReadsWell, RefusesFirst};

use sets::refusal::{Refusal, Source};
use sets::{bits, numbers};

// The groups kept in the two words from word `at` on, as one number: bit g stands for group g.
fn kept_groups(state: &[u32], at: usize) -> u64
    requires { at + 2 ≤ length state.now }
    ensures { (g : ℕ) → g < 64 → (result / 2 ^ g % 2 == 1) ≡ word_row state.now at g }
{
    (state[at] as u64) | ((state[at + 1] as u64) << 32)
}

// A rule of limits as it lies in the file: for n offers, so many groups, from byte `at` on.
// That it is well-formed stands in clauses and not here: `Well` tells for two groups which lies in the other, and a ghost
// field has to be a fact that has one proof at most.
#[derive(Clone, Copy)]
pub struct Limits<'a> {
    pub file: &'a [u8],
    pub n: usize,
    pub groups: usize,
    pub at: usize,
    ghost few: { n ≤ 600 },
}

impl Limits<'_> {
    // How many bytes the row of a group takes.
    fn row_bytes(&self) -> usize
        ensures { result ≡ row_bytes self.now.n }
    {
        self.n.div_ceil(8)
    }

    // How many bytes a group takes.
    fn group_bytes(&self) -> usize
        ensures { result ≡ group_bytes self.now.n }
    {
        2 + self.row_bytes()
    }

    // Where group g begins.
    fn group_at(&self, g: usize) -> usize
        requires { group_at self.now.n self.now.at g < 2 ^ 64 }
        ensures { result ≡ group_at self.now.n self.now.at g }
    {
        self.at + g * self.group_bytes()
    }

    // The limit of group g.
    pub fn limit(&self, g: usize) -> usize
        requires { group_at self.now.n self.now.at g + 2 ≤ length self.now.file.now }
        ensures { result ≡ limit self.now.file.now self.now.n self.now.at g }
    {
        numbers::read::<2>(self.file, self.group_at(g)) as usize
    }

    // Is offer i in group g?
    pub fn in_group(&self, g: usize, i: usize) -> bool
        requires offer { i < self.now.n }
        requires within { group_at self.now.n self.now.at g + group_bytes self.now.n ≤ length self.now.file.now }
        ensures { result ≡ in_group self.now.file.now self.now.n self.now.at g i }
    {
        bits::contains(self.file, self.group_at(g) + 2, i)
    }

    // Byte k of the row of group g, without the bits behind the last offer.
    fn offers_in(&self, g: usize, k: usize) -> u8
        requires byte { k < row_bytes self.now.n }
        requires within { group_at self.now.n self.now.at g + group_bytes self.now.n ≤ length self.now.file.now }
        ensures { result ≡ slice_index self.now.file.now (group_at self.now.n self.now.at g + 2 + k) % 2 ^ min 8 (self.now.n - 8 * k) }
    {
        let byte = self.file[self.group_at(g) + 2 + k];
        if k < self.n / 8 {
            byte
        } else {
            byte % (1 << (self.n % 8))
        }
    }

    // Do groups g and h share an offer?
    fn share(&self, g: usize, h: usize) -> bool
        requires first { group_at self.now.n self.now.at g + group_bytes self.now.n ≤ length self.now.file.now }
        requires second { group_at self.now.n self.now.at h + group_bytes self.now.n ≤ length self.now.file.now }
        ensures { result ≡ some self.now.n (both (in_group self.now.file.now self.now.n self.now.at g) (in_group self.now.file.now self.now.n self.now.at h)) }
    {
        (0..self.row_bytes()).any(|k| self.offers_in(g, k) & self.offers_in(h, k) != 0)
    }

    // Has group g an offer that group h lacks?
    fn sticks_out(&self, g: usize, h: usize) -> bool
        requires first { group_at self.now.n self.now.at g + group_bytes self.now.n ≤ length self.now.file.now }
        requires second { group_at self.now.n self.now.at h + group_bytes self.now.n ≤ length self.now.file.now }
        ensures { result ≡ some self.now.n (outside (in_group self.now.file.now self.now.n self.now.at g) (in_group self.now.file.now self.now.n self.now.at h)) }
    {
        (0..self.row_bytes()).any(|k| self.offers_in(g, k) & !self.offers_in(h, k) != 0)
    }

    // Do groups g and h share an offer, while each has one that the other lacks?
    fn overlap(&self, g: usize, h: usize) -> bool
        requires first { group_at self.now.n self.now.at g + group_bytes self.now.n ≤ length self.now.file.now }
        requires second { group_at self.now.n self.now.at h + group_bytes self.now.n ≤ length self.now.file.now }
        ensures { result ≡ overlaps self.now.n (in_group self.now.file.now self.now.n self.now.at g) (in_group self.now.file.now self.now.n self.now.at h) }
    {
        self.share(g, h) && self.sticks_out(g, h) && self.sticks_out(h, g)
    }

    // Does group g overlap an earlier one?
    fn overlaps_earlier(&self, g: usize) -> bool
        requires { group_at self.now.n self.now.at g + group_bytes self.now.n ≤ length self.now.file.now }
        ensures { result ≡ overlaps_below self.now.file.now self.now.n self.now.at g g }
    {
        (0..g).any(|h| self.overlap(h, g))
    }

    // Is a bit behind the last offer set in group g?
    fn has_stray_bit(&self, g: usize) -> bool
        requires { group_at self.now.n self.now.at g + group_bytes self.now.n ≤ length self.now.file.now }
        ensures { result ≡ has_stray self.now.file.now self.now.n self.now.at g }
    {
        let place = self.group_at(g) + 2;
        (self.n..8 * self.row_bytes()).any(|i| bits::contains(self.file, place, i))
    }

    // Checks group g: its limit, that all of it is there, that it overlaps no earlier group, and that no bit behind the last offer is set.
    fn check_group(&self, g: usize) -> Result<(), Refusal>
        requires { group_at self.now.n self.now.at g ≤ length self.now.file.now }
        ensures { result ≡ read_group self.now.file.now self.now.n self.now.at g }
    {
        let place = self.group_at(g);
        let left = self.file.len() - place;
        if left < 2 {
            return Err(Refusal::Length(Source::Offers, self.file.len()));
        }
        if self.limit(g) > 600 {
            return Err(Refusal::Range(Source::Offers, place));
        }
        if left < self.group_bytes() {
            return Err(Refusal::Length(Source::Offers, self.file.len()));
        }
        if self.overlaps_earlier(g) {
            return Err(Refusal::Overlap(place));
        }
        if self.has_stray_bit(g) {
            return Err(Refusal::Range(Source::Offers, place + 1 + self.row_bytes()));
        }
        Ok(())
    }

    // How many offers of group g are in the set.
    fn count_group(&self, g: usize, set: &[u32]) -> usize
        requires within { group_at self.now.n self.now.at g + group_bytes self.now.n ≤ length self.now.file.now }
        requires room { row_words self.now.n ≤ length set.now }
        ensures { result ≡ size self.now.n (both (in_group self.now.file.now self.now.n self.now.at g) (marked set.now)) }
    {
        (0..self.n)
            .filter(|&i| self.in_group(g, i) && bits::contains(set, 0, i))
            .count()
    }

    // Notes group g with each of its offers.
    fn mark_group(&self, g: usize, state: &mut [u32])
        requires low { g < 64 }
        requires within { group_at self.now.n self.now.at g + group_bytes self.now.n ≤ length self.now.file.now }
        requires room { kept_length self.now.n ≤ length state.old }
        ensures { Marked self.now.file.now self.now.n self.now.at g self.now.n state.old state.new }
    {
        for i in 0..self.n {
            if self.in_group(g, i) {
                bits::insert(state, 2 + 2 * i, g);
            }
        }
    }

    // Is the set allowed? Where it is, `state` afterwards holds what is kept for the set; where it is not, what `state` holds is free.
    // A bool and no Option, since what is kept lies in lent memory.
    #[tactic(auto, using(crate::proofs::Steps::ends_before))]
    pub fn independent(&self, set: &[u32], state: &mut [u32]) -> bool
        requires well { Well self.now.file.now self.now.n self.now.groups self.now.at }
        requires room { (row_words self.now.n ≤ length set.now) × (kept_length self.now.n ≤ length state.old) }
        ensures answers { result ≡ allows self.now.file.now self.now.n self.now.groups self.now.at (marked set.now) }
        ensures kept { result ≡ true → Ready self.now.file.now self.now.n self.now.groups self.now.at (marked set.now) state.new }
    {
        bits::clear(state, 0, 2 + 2 * self.n);
        for g in 0..self.groups {
            let held = self.count_group(g, set);
            let most = self.limit(g);
            if held > most {
                return false;
            }
            self.mark_group(g, state);
            if held == most {
                bits::insert(state, 0, g);
            }
        }
        true
    }

    // May x, which is not in the set, be added to it? Just where no full group holds x.
    pub fn can_add(&self, set: &[u32], state: &[u32], x: usize) -> bool
        requires well { Well self.now.file.now self.now.n self.now.groups self.now.at }
        requires ready { Ready self.now.file.now self.now.n self.now.groups self.now.at (marked set.now) state.now }
        requires outside { (x < self.now.n) × (marked set.now x ≡ false) }
        ensures { result ≡ allows self.now.file.now self.now.n self.now.groups self.now.at (with (marked set.now) x) }
    {
        let full = kept_groups(state, 0);
        let come = kept_groups(state, 2 + 2 * x);
        full & come == 0
    }

    // May x, which is not in the set, come for y, which is? Just where each full group that holds x holds y.
    pub fn can_exchange(&self, set: &[u32], state: &[u32], x: usize, y: usize) -> bool
        requires well { Well self.now.file.now self.now.n self.now.groups self.now.at }
        requires ready { Ready self.now.file.now self.now.n self.now.groups self.now.at (marked set.now) state.now }
        requires outside { (x < self.now.n) × (marked set.now x ≡ false) }
        requires inside { (y < self.now.n) × (marked set.now y ≡ true) }
        ensures { result ≡ allows self.now.file.now self.now.n self.now.groups self.now.at (with (without (marked set.now) y) x) }
    {
        let full = kept_groups(state, 0);
        let come = kept_groups(state, 2 + 2 * x);
        let go = kept_groups(state, 2 + 2 * y);
        full & come & !go == 0
    }
}

// Reads the rule whose count of groups stands at byte p: the number of groups of a well-formed rule, or its first fault.
pub fn read(file: &[u8], n: usize, p: usize) -> Result<usize, Refusal>
    requires { (n ≤ 600) × (p ≤ length file.now) }
    ensures { result ≡ read file.now n p }
{
    if p == file.len() {
        return Err(Refusal::Length(Source::Offers, file.len()));
    }
    let groups = file[p] as usize;
    if groups > 64 {
        return Err(Refusal::Range(Source::Offers, p));
    }
    let rule = Limits {
        file,
        n,
        groups,
        at: p + 1,
    };
    for g in 0..groups {
        rule.check_group(g)?;
    }
    Ok(groups)
}

// A set is allowed just where it has no more of any group than its limit.
pub fn allowed_is_within_limits() -> u8
    ensures { ReadingAgrees }
{
    0
}

// A well-formed rule of limits is a matroid.
pub fn limits_are_a_matroid() -> u8
    ensures { LimitsMatroid }
{
    0
}

// A rule is read just where its count is there and it is well formed.
pub fn what_is_read_is_well_formed() -> u8
    ensures { ReadsWell }
{
    0
}

// A rule that is refused is refused for the first of its faults.
pub fn first_fault_is_refused() -> u8
    ensures { RefusesFirst }
{
    0
}

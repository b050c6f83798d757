// Why a file of offers, a certificate or lent memory is refused.
ghost use Rattle.std.specs.Prelude.{◌≡◌, Some};
ghost use Rattle.sets.specs.Refusals.{number, place, source, slice_place, source_text, refusal_text};

use std::fmt;

// Which of the two inputs a place in bytes belongs to.
#[derive(Clone, Copy, PartialEq, Eq, Debug)]
pub enum Source {
    Offers,
    Certificate,
}

// The lent slices that may be too short.
#[derive(Clone, Copy, PartialEq, Eq, Debug)]
pub enum Lent {
    Sets,
    Numbers,
    Work,
}

// The two rules of a file of offers.
#[derive(Clone, Copy, PartialEq, Eq, Debug)]
pub enum Which {
    First,
    Second,
}

// A refusal, with a case for each reason; `specs/Refusals.antt` gives each its number and its place.
#[derive(Clone, Copy, PartialEq, Eq, Debug)]
pub enum Refusal {
    // The bytes end too early or go on: their length, or the first byte too many.
    Length(Source, usize),
    // No offers, or more than 600.
    Offers,
    // A weight above 1,000,000.
    Weight(usize),
    // A rule's kind that is not 1 to 4.
    Kind(usize),
    // A count or a limit that is too large, or a bit from n on.
    Range(Source, usize),
    // A group that overlaps an earlier one with neither inside the other.
    Overlap(usize),
    // A town that does not exist.
    Town(usize),
    // No prime up to 251, a length 0 or above 64, or a number not below the prime.
    Row(usize),
    // A lent slice that is too short.
    Short(Lent),
    // A set of the certificate, by its size, that a rule does not allow, and which rule; the first, too, if it has another size.
    Refused(usize, Which),
    // The dual set: the first offer that could be added.
    Dual(usize),
    // The numbers of a size: the size and the first offer in fault.
    Split(usize, usize),
}

impl Lent {
    // Which of the lent slices it is, from 0.
    pub fn place(self) -> u8
        ensures { result ≡ slice_place self }
    {
        match self {
            Lent::Sets => 0,
            Lent::Numbers => 1,
            Lent::Work => 2,
        }
    }
}

impl Refusal {
    // The reason's number, 1 to 12, for those who read it printed: nothing in the code goes by it.
    pub fn number(self) -> u8
        ensures { result ≡ number self }
    {
        match self {
            Refusal::Length(_, _) => 1,
            Refusal::Offers => 2,
            Refusal::Weight(_) => 3,
            Refusal::Kind(_) => 4,
            Refusal::Range(_, _) => 5,
            Refusal::Overlap(_) => 6,
            Refusal::Town(_) => 7,
            Refusal::Row(_) => 8,
            Refusal::Short(_) => 9,
            Refusal::Refused(_, _) => 10,
            Refusal::Dual(_) => 11,
            Refusal::Split(_, _) => 12,
        }
    }

    // Where: a byte, an offer, a lent slice, or twice a set's size and one more for the second rule.
    pub fn place(self) -> u128
        ensures { result ≡ place self }
    {
        match self {
            Refusal::Offers => 0,
            Refusal::Length(_, at) | Refusal::Range(_, at) => at as u128,
            Refusal::Weight(at) | Refusal::Kind(at) | Refusal::Overlap(at) => at as u128,
            Refusal::Town(at) | Refusal::Row(at) => at as u128,
            Refusal::Short(lent) => lent.place() as u128,
            Refusal::Refused(size, Which::First) => size as u128 * 2,
            Refusal::Refused(size, Which::Second) => size as u128 * 2 + 1,
            Refusal::Dual(offer) | Refusal::Split(_, offer) => offer as u128,
        }
    }

    // The input that the place belongs to; none for lent memory.
    pub fn source(self) -> Option<Source>
        ensures { result ≡ source self }
    {
        match self {
            Refusal::Length(source, _) | Refusal::Range(source, _) => Some(source),
            Refusal::Short(_) => None,
            Refusal::Refused(_, _) | Refusal::Dual(_) | Refusal::Split(_, _) => Some(
                Source::Certificate,
            ),
            _ => Some(Source::Offers),
        }
    }
}

// The input by its name, as in `refused 5 at 12 in the offers`.
impl fmt::Display for Source {
    ghost output = { λ input. Some (source_text input) };

    fn fmt<W: fmt::Write>(&self, f: &mut fmt::Formatter<W>) -> fmt::Result {
        match self {
            Source::Offers => write!(f, "the offers"),
            Source::Certificate => write!(f, "the certificate"),
        }
    }
}

// The reason's number and the place, as in `refused 5 at 12`.
impl fmt::Display for Refusal {
    ghost output = { λ refusal. Some (refusal_text refusal) };

    fn fmt<W: fmt::Write>(&self, f: &mut fmt::Formatter<W>) -> fmt::Result {
        let number = self.number();
        let place = self.place();
        write!(f, "refused {number} at {place}")
    }
}

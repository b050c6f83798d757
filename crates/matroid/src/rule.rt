// A rule of a file of offers, and the kinds of rules.
ghost use Rattle.std.specs.Prelude.{◌≡◌, ℕ, ◌+◌, ◌*◌, ◌^◌, ◌<◌, ◌≤◌};
ghost use Rattle.matroid.specs.Kinds.{Coded};
ghost use Rattle.matroid.specs.Problem.{rule_end};

// The kinds of rules, each with its byte in a file.
#[derive(Clone, Copy, PartialEq, Eq, Debug)]
pub enum Kind {
    Limits,
    Volunteers,
    Links,
    Rows,
}

// A byte that stands for no kind.
#[derive(Clone, Copy, PartialEq, Eq, Debug)]
pub struct UnknownKind(pub u8);

impl TryFrom<u8> for Kind {
    type Error = UnknownKind;

    ghost try_from_gives = { Coded };

    fn try_from(byte: u8) -> Result<Kind, UnknownKind> {
        match byte {
            1 => Ok(Kind::Limits),
            2 => Ok(Kind::Volunteers),
            3 => Ok(Kind::Links),
            4 => Ok(Kind::Rows),
            _ => Err(UnknownKind(byte)),
        }
    }
}

// The kind of a rule, with its counts and the place of what stands behind its header.
#[derive(Clone, Copy)]
pub enum Rule {
    // Groups of offers, and how many of each a set may have.
    Limits {
        groups: usize,
        at: usize,
    },
    // Volunteers, and the offers that each can look after.
    Volunteers {
        volunteers: usize,
        at: usize,
    },
    // Towns, and a link for each offer.
    Links {
        towns: usize,
        at: usize,
    },
    // A row of numbers modulo a prime for each offer.
    Rows {
        prime: u64,
        length: usize,
        at: usize,
    },
}

impl Rule {
    // The place behind the rule.
    pub fn end(self, n: usize) -> usize
        requires { (n ≤ 600) × (rule_end n self < 2 ^ 64) }
        ensures { result ≡ rule_end n self }
    {
        match self {
            Rule::Limits { groups, at } => at + groups * (2 + n.div_ceil(8)),
            Rule::Volunteers { volunteers, at } => at + volunteers * n.div_ceil(8),
            Rule::Links { towns: _, at } => at + 4 * n,
            Rule::Rows {
                prime: _,
                length,
                at,
            } => at + n * length,
        }
    }
}

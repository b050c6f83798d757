// Sets in bytes.
ghost use Rattle.std.proofs.Common.{rules};
ghost use Rattle.sets.specs.Bits.{member, bit_of, byte_element};

use crate::cell::Cell;

impl Cell for u8 {
    const BITS: usize = 8;

    ghost BITS = { 8 };

    const EMPTY: u8 = 0;

    ghost EMPTY = { 0 };

    ghost bit = { bit_of };

    ghost element = { member };

    ghost copies = { Prim.search rules };

    ghost wide = { Prim.search rules };

    ghost blank = { Prim.search rules };

    ghost elements = { byte_element };

    fn has(self, i: usize) -> bool {
        (self >> i) % 2 == 1
    }

    fn with(self, i: usize) -> u8 {
        self | (1 << i)
    }

    fn without(self, i: usize) -> u8 {
        self & !(1 << i)
    }
}

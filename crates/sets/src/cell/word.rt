// Sets in words of 32 bits.
ghost use Rattle.std.proofs.Common.{rules};
ghost use Rattle.sets.specs.Bits.{marked, bit_of, word_element};

use crate::cell::Cell;

impl Cell for u32 {
    const BITS: usize = 32;

    ghost BITS = { 32 };

    const EMPTY: u32 = 0;

    ghost EMPTY = { 0 };

    ghost bit = { bit_of };

    ghost element = { marked };

    ghost copies = { Prim.search rules };

    ghost wide = { Prim.search rules };

    ghost blank = { Prim.search rules };

    ghost elements = { word_element };

    fn has(self, i: usize) -> bool {
        (self >> i) % 2 == 1
    }

    fn with(self, i: usize) -> u32 {
        self | (1 << i)
    }

    fn without(self, i: usize) -> u32 {
        self & !(1 << i)
    }
}

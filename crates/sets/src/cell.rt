// What the bits of a set lie in: bytes, or words of 32 bits.
ghost use Rattle.std.specs.Prelude.{◌≡◌, ℕ, ◌+◌, ◌*◌, ◌/◌, ◌%◌, ◌<◌, Bool, false, not, ◌&&◌, ◌||◌, ◌==◌, List, slice_index_or};

mod byte;
mod word;

// A number of BITS bits. A list of them is a set: element i is bit i mod BITS of number i div BITS.
pub trait Cell: Copy {
    const BITS: usize;

    ghost BITS: { ℕ };

    // The number with no bits.
    const EMPTY: Self;

    ghost EMPTY: { Self };

    // Bit i of a number.
    ghost bit: { Self → ℕ → Bool };

    // Element i of the set in a list.
    ghost element: { List Self → ℕ → Bool };

    // Is bit i set?
    fn has(self, i: usize) -> bool
        requires { i < BITS }
        ensures { result ≡ bit self i };

    // The number with bit i set.
    fn with(self, i: usize) -> Self
        requires { i < BITS }
        ensures { (j : ℕ) → j < BITS → bit result j ≡ (bit self j || j == i) };

    // The number with bit i not set.
    fn without(self, i: usize) -> Self
        requires { i < BITS }
        ensures { (j : ℕ) → j < BITS → bit result j ≡ (bit self j && not (j == i)) };

    ghost copies: { (x : Self) → Self.is_infallible x × ((y : Self) → Self.is_clone x y → y ≡ x) };

    ghost wide: { 0 < BITS };

    ghost blank: { (i : ℕ) → bit EMPTY i ≡ false };

    ghost elements: { (cells : List Self) (i : ℕ) → element cells i ≡ bit (slice_index_or cells (i / BITS) EMPTY) (i % BITS) };
}

// Numbers in lent bytes, the low byte first.
ghost use Rattle.std.specs.Prelude.{◌≡◌, ℕ, ◌+◌, ◌%◌, ◌^◌, ◌<◌, ◌≤◌, length};
ghost use Rattle.sets.specs.Bits.{le, SameBut};

// The number in the N bytes from `at` on.
pub fn read<const N: usize>(bytes: &[u8], at: usize) -> u64
    requires within { at + N ≤ length bytes.now }
    requires width { N ≤ 8 }
    ensures number { result ≡ le N bytes.now at }
    ensures range { result < 256 ^ N }
{
    let mut value = 0;
    for k in (0..N).rev() {
        value = 256 * value + bytes[at + k] as u64;
    }
    value
}

// Writes the low N bytes of the number from `at` on.
pub fn write<const N: usize>(bytes: &mut [u8], at: usize, value: u64)
    requires { at + N ≤ length bytes.old }
    ensures number { le N bytes.new at ≡ value % 256 ^ N }
    ensures rest { SameBut at N bytes.old bytes.new }
{
    let mut left = value;
    for k in 0..N {
        bytes[at + k] = (left % 256) as u8;
        left /= 256;
    }
}

// Numbers of two and four bytes, least significant first, by shifts and masks: nothing multiplies or divides (02, request 3), as the library's
// from_le_bytes and to_le_bytes do.
ghost use Rattle.std.specs.Prelude.{◌≡◌, ℕ, ◌+◌, ◌/◌, ◌%◌, ◌<◌, ◌≤◌, length};
ghost use Rattle.wire.specs.Bytes.{number2, number4, bytes4};

// The number in the two bytes from `at` on.
pub fn le_u16(s: &[u8], at: usize) -> u32
    requires { at + 2 ≤ length s.now }
    ensures { (result ≡ number2 s.now at) × (result < 65536) }
{
    u32::from(s[at]) + (u32::from(s[at + 1]) << 8)
}

// The number in the four bytes from `at` on.
#[tactic(auto, unfolding(wire::specs::Bytes::number4))]
pub fn le_u32(s: &[u8], at: usize) -> u32
    requires { at + 4 ≤ length s.now }
    ensures { result ≡ number4 s.now at }
{
    le_u16(s, at) + (le_u16(s, at + 2) << 16)
}

// The low byte of a number, and the one above it.
pub fn low(n: u32) -> u8
    ensures { result ≡ n % 256 }
{
    (n & 0xff) as u8
}

pub fn high(n: u32) -> u8
    ensures { result ≡ n / 256 % 256 }
{
    ((n >> 8) & 0xff) as u8
}

// The four bytes of a number.
#[tactic(auto, unfolding(wire::specs::Bytes::bytes4))]
pub fn bytes_of(n: u32) -> [u8; 4]
    ensures { result ≡ bytes4 n }
{
    let upper = n >> 16;
    [low(n), high(n), low(upper), high(upper)]
}

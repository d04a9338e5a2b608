//! Numbers of several bytes, the most significant first.
ghost use Rattle.std.specs.Prelude.{◌≡◌, ◌+◌, ◌<◌, ◌≤◌, ◌^◌, length};
ghost use Rattle.cidr_mmdb.specs.Numbers.{number_at};

/// The number of two bytes.
pub(crate) fn two(bytes: &[u8], at: usize) -> u32
    requires { at + 2 ≤ length bytes.now }
    ensures value { result ≡ number_at bytes.now at 2 }
    ensures below { result < 2 ^ 16 }
{
    u32::from(bytes[at]) * 256 + u32::from(bytes[at + 1])
}

/// The number of three bytes.
pub(crate) fn three(bytes: &[u8], at: usize) -> u32
    requires { at + 3 ≤ length bytes.now }
    ensures value { result ≡ number_at bytes.now at 3 }
    ensures below { result < 2 ^ 24 }
{
    u32::from(bytes[at]) * 65536 + u32::from(bytes[at + 1]) * 256 + u32::from(bytes[at + 2])
}

/// The number of four bytes.
pub(crate) fn four(bytes: &[u8], at: usize) -> u32
    requires { at + 4 ≤ length bytes.now }
    ensures { result ≡ number_at bytes.now at 4 }
{
    u32::from(bytes[at]) * 0x100_0000
        + u32::from(bytes[at + 1]) * 65536
        + u32::from(bytes[at + 2]) * 256
        + u32::from(bytes[at + 3])
}

/// The number of so many bytes.
pub(crate) fn number(bytes: &[u8], at: usize, count: u32) -> u128
    requires within { at + count ≤ length bytes.now }
    requires few { count ≤ 16 }
    ensures value { result ≡ number_at bytes.now at count }
    ensures below { result < 256 ^ count }
{
    let mut value: u128 = 0;
    let mut place = at;
    let mut left = count;
    while left > 0 {
        value = value * 256 + u128::from(bytes[place]);
        place += 1;
        left -= 1;
    }
    value
}

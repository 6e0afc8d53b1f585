// Numbers of one, two, four and eight octets, and the signed number of eight. A function for each
// width: a trait over the width was tried, and its methods cannot carry these clauses yet; a generic
// read owes the array's size as a new `requires`.
ghost use Rattle.std.specs.Prelude.{◌≡◌, ℕ, ◌+◌, ◌<◌, get_or, slice_index};
ghost use Rattle.std.specs.Int.{w64};
ghost use Rattle.std.proofs.Common.{to_z, of_z};
ghost use Rattle.octets.specs.Octets.{number, octets, signed_number, signed_octets};

// The octet k places after `at`, and 0 past the end.
fn octet(s: &[u8], at: usize, k: usize) -> u8
    ensures { result ≡ get_or s.now (at + k) 0 }
{
    if s.len() <= at || s.len() - at <= k {
        return 0;
    }
    s[at + k]
}

// The N octets from `at` on, 0 for each past the end.
#[inline(always)]
fn window<const N: usize>(s: &[u8], at: usize) -> [u8; N]
    ensures { (k : ℕ) → k < N → slice_index result k ≡ get_or s.now (at + k) 0 }
{
    let mut octets = [0; N];
    for k in 0..N {
        octets[k] = octet(s, at, k);
    }
    octets
}

/// The number in octet `at`.
pub fn read8(s: &[u8], at: usize) -> u8
    ensures { result ≡ number 1 s.now at }
{
    octet(s, at, 0)
}

/// The number in octets `at` and `at` + 1.
pub fn read16(s: &[u8], at: usize) -> u16
    ensures { result ≡ number 2 s.now at }
{
    u16::from_be_bytes(window(s, at))
}

/// The number in the four octets from `at` on.
pub fn read32(s: &[u8], at: usize) -> u32
    ensures { result ≡ number 4 s.now at }
{
    u32::from_be_bytes(window(s, at))
}

/// The number in the eight octets from `at` on.
#[inline(always)]
pub fn read64(s: &[u8], at: usize) -> u64
    ensures { result ≡ number 8 s.now at }
{
    u64::from_be_bytes(window(s, at))
}

/// The signed number in the eight octets from `at` on.
#[inline(always)]
pub fn read_signed(s: &[u8], at: usize) -> i64
    ensures { result ≡ signed_number s.now at }
{
    signed(read64(s, at))
}

/// The two octets of x.
pub fn octets16(x: u16) -> [u8; 2]
    ensures { result ≡ octets 2 x }
{
    u16::to_be_bytes(x)
}

/// The four octets of x.
pub fn octets32(x: u32) -> [u8; 4]
    ensures { result ≡ octets 4 x }
{
    u32::to_be_bytes(x)
}

/// The eight octets of x.
pub fn octets64(x: u64) -> [u8; 8]
    ensures { result ≡ octets 8 x }
{
    u64::to_be_bytes(x)
}

/// The eight octets of the two's complement of z.
pub fn octets_signed(z: i64) -> [u8; 8]
    ensures { result ≡ signed_octets z }
{
    octets64(unsigned(z))
}

/// The signed number whose two's complement is x.
pub fn signed(x: u64) -> i64
    ensures { result ≡ to_z w64 x }
{
    x.cast_signed()
}

/// The two's complement of z.
pub fn unsigned(z: i64) -> u64
    ensures { result ≡ of_z w64 z }
{
    z.cast_unsigned()
}

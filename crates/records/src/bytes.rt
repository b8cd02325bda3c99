// Numbers in bytes. This serves our own crates only: a caller has to see that the bytes are there.
ghost use Rattle.std.specs.Prelude.{◌≡◌, ◌+◌, ◌<◌, ◌≤◌, length, take, drop, IfSome};
ghost use Rattle.rules.specs.Basics.{number};
ghost use Rattle.records.specs.Checking.{length_of};

pub fn u16_at(s: &[u8], i: usize) -> usize
    requires { i + 2 ≤ length s.now }
    ensures { (result ≡ number (take 2 (drop i s.now))) × (result < 65536) }
{
    usize::from(u16::from_le_bytes([s[i], s[i + 1]]))
}

pub fn u32_at(s: &[u8], i: usize) -> u32
    requires { i + 4 ≤ length s.now }
    ensures { result ≡ number (take 4 (drop i s.now)) }
{
    u32::from_le_bytes([s[i], s[i + 1], s[i + 2], s[i + 3]])
}

// The length of the record that s begins with; none where it is under 4 or runs past s.
pub fn record_len(s: &[u8]) -> Option<usize>
    ensures is { result ≡ length_of s.now }
    ensures within { IfSome result (λ n. (4 ≤ n) × (n ≤ length s.now)) }
{
    if s.len() < 4 {
        return None;
    }
    let n = u16_at(s, 0);
    (4..=s.len()).contains(&n).then_some(n)
}

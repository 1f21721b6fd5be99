ghost use Rattle.std.specs.Prelude.{◌≡◌, ◌-◌, ◌^◌, ◌<◌, ◌≤◌};
ghost use Rattle.words.specs.Numbers.{number_in, octets_in, address_in};

use crate::bytes::find;

// The number from `low` to `high` that a word writes in decimal with no leading zero, or none.
pub(crate) fn number_in(word: &[u8], low: u16, high: u16) -> Option<u16>
    ensures { result ≡ number_in low high word.now }
{
    if word.is_empty() {
        return None;
    }
    if word[0] == b'0' && word.len() > 1 {
        return None;
    }
    let mut n: u32 = 0;
    for b in word {
        if !b.is_ascii_digit() {
            return None;
        }
        n = 10 * n + (*b - b'0') as u32;
        if n > high as u32 {
            return None;
        }
    }
    if n < low as u32 { None } else { Some(n as u16) }
}

// The value of `left` + 1 numbers 0 to 255 joined by dots, after those that made `value`.
fn octets(word: &[u8], left: u32, value: u32) -> Option<u32>
    requires { (left ≤ 3) × (value < 256 ^ (3 - left)) }
    ensures { result ≡ octets_in left value word.now }
{
    if left == 0 {
        let n = number_in(word, 0, 255)?;
        return Some(value * 256 + n as u32);
    }
    let end = find(word, b'.')?;
    let n = number_in(&word[..end], 0, 255)?;
    octets(&word[end + 1..], left - 1, value * 256 + n as u32)
}

// The address that a word writes, or none.
pub(crate) fn address_in(word: &[u8]) -> Option<u32>
    ensures { result ≡ address_in word.now }
{
    octets(word, 3, 0)
}

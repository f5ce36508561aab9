//! Numbers that bytes write.

ghost use Rattle.std.specs.Prelude.{◌≡◌, ◌<◌, ◌≤◌, IfSome};
ghost use Rattle.dsa_model.specs.Numbers.{written_number};

/// The number that 1 to 20 digits write, if it is at most `most`; none for any other bytes.
pub fn parse_number(bytes: &[u8], most: u64) -> Option<u64>
    ensures number { result ≡ written_number most bytes.now }
    ensures within { IfSome result (λ number. number ≤ most) }
{
    if bytes.is_empty() || bytes.len() > 20 {
        return None;
    }
    let mut value: u128 = 0;
    for byte in bytes {
        if !byte.is_ascii_digit() {
            return None;
        }
        value = value * 10 + (*byte - b'0') as u128;
    }
    if value <= most as u128 {
        Some(value as u64)
    } else {
        None
    }
}

// Numbers in decimal digits.
ghost use Rattle.std.specs.Prelude.{◌≡◌, ◌^◌};
ghost use Rattle.vbr_script.specs.Number.{number_below};

// The number that a token spells: one or more digits and nothing else, below 2^64.
pub fn number(token: &[u8]) -> Option<u64>
    ensures { result ≡ number_below (2 ^ 64) token.now }
{
    if token.is_empty() {
        return None;
    }
    let mut value: u64 = 0;
    for byte in token {
        if !byte.is_ascii_digit() {
            return None;
        }
        value = value.checked_mul(10)?.checked_add(u64::from(*byte - b'0'))?;
    }
    Some(value)
}

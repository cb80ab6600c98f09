//! Zigzag: numbers with a sign as numbers without one; n becomes 2n, and -n - 1 becomes 2n + 1.

ghost use Rattle.pagable_value_spec.specs.Numbers.{from_zigzag, zigzag};
ghost use Rattle.std.specs.Prelude.{◌≡◌};

// Returns the number without a sign that encodes this one.
pub(crate) fn encode(number: i64) -> u64
    ensures { result ≡ zigzag number }
{
    if number >= 0 {
        2 * number as u64
    } else {
        2 * (-1 - number) as u64 + 1
    }
}

// Returns the number with a sign that this one encodes.
pub(crate) fn decode(number: u64) -> i64
    ensures { result ≡ from_zigzag number }
{
    let half = (number / 2) as i64;
    if number % 2 == 0 { half } else { -1 - half }
}

// Does what `encode` does, for 128 bits.
pub(crate) fn encode_wide(number: i128) -> u128
    ensures { result ≡ zigzag number }
{
    if number >= 0 {
        2 * number as u128
    } else {
        2 * (-1 - number) as u128 + 1
    }
}

// Does what `decode` does, for 128 bits.
pub(crate) fn decode_wide(number: u128) -> i128
    ensures { result ≡ from_zigzag number }
{
    let half = (number / 2) as i128;
    if number % 2 == 0 { half } else { -1 - half }
}

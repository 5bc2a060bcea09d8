// Numbers as the command line gives them: addresses in hexadecimal, 1 to 16 digits, with or without a leading 0x or 0X; counts in
// decimal, 1 to 19 digits. Leading zeros do not count. Any other text is no number.
#![tactic(auto)]

ghost use Rattle.std.specs.Prelude.{◌≡◌, ◌≤◌, ◌^◌, drop};
ghost use Rattle.digits.specs.Digits.{digit_of, digits_of, padding, number_of, hex_of, decimal_of};

// The value of a digit. A byte that is none has 16, which no base takes.
#[tactic(auto, unfolding(crate::specs::Digits::digit_of))]
fn digit_of(byte: u8) -> u64
    ensures { result ≡ digit_of byte }
{
    match byte {
        b'0'..=b'9' => byte as u64 - 48,
        b'A'..=b'F' => byte as u64 - 55,
        b'a'..=b'f' => byte as u64 - 87,
        _ => 16,
    }
}

// The number that digits to a base make: so few of them that no sum wraps.
fn digits_of(text: &[u8], base: u64, most: usize) -> Option<u64>
    requires { (2 ≤ base) × (base ^ most ≤ 2 ^ 64) }
    ensures { result ≡ digits_of base most text.now }
{
    if text.is_empty() || most < text.len() {
        return None;
    }
    let mut n = 0;
    for byte in text {
        let digit = digit_of(*byte);
        if base <= digit {
            return None;
        }
        n = base * n + digit;
    }
    Some(n)
}

// Text without the zeros that stand in front of another byte.
fn without_padding(text: &[u8]) -> &[u8]
    ensures { result.now ≡ drop (padding text.now) text.now }
{
    let mut rest = text;
    while let [b'0', _, ..] = rest {
        rest = &rest[1..];
    }
    rest
}

// The number that digits to a base make behind their leading zeros.
#[tactic(auto, unfolding(crate::specs::Digits::number_of))]
fn number_of(text: &[u8], base: u64, most: usize) -> Option<u64>
    requires { (2 ≤ base) × (base ^ most ≤ 2 ^ 64) }
    ensures { result ≡ number_of base most text.now }
{
    digits_of(without_padding(text), base, most)
}

// The hexadecimal number that text says.
pub fn parse(text: &[u8]) -> Option<u64>
    ensures { result ≡ hex_of text.now }
{
    match text {
        [b'0', b'x' | b'X', digits @ ..] => number_of(digits, 16, 16),
        _ => number_of(text, 16, 16),
    }
}

// The decimal number that text says.
#[tactic(auto, unfolding(crate::specs::Digits::decimal_of))]
pub fn parse_decimal(text: &[u8]) -> Option<u64>
    ensures { result ≡ decimal_of text.now }
{
    number_of(text, 10, 19)
}

// Unsigned numbers of 1, 2, 4 and 8 bytes at a place of a slice, in either byte order.
// Each reader is held to the one definition of specs/Field, and each is proved by the one law on a field's digits.
ghost use Rattle.std.specs.Prelude.{◌≡◌, ◌+◌, ◌≤◌, ◌<◌, ◌^◌, length, get_or};
ghost use Rattle.numbers.specs.Field.{field_of, byte_of};
ghost use Rattle.numbers.specs.Inner.Digits.{digit_place};
ghost use Rattle.numbers.specs.Computed.Number.{number_of};

#[derive(Clone, Copy, PartialEq, Eq)]
pub enum Order {
    Little,
    Big,
}

// Why there is no number to read.
#[derive(Clone, Copy)]
pub enum NumberError {
    // Some of its bytes would lie outside.
    Outside,
    // No width has that code.
    NoWidth,
}

// Digit k, the least being 0, of the number of `width` bytes at `at`.
#[tactic(auto, unfolding(crate::specs::Inner::Digits::digit_place))]
fn digit_at(bytes: &[u8], at: usize, width: usize, k: usize, order: Order) -> u8
    requires { (k < width) × (at + width ≤ length bytes.now) }
    ensures { result ≡ get_or bytes.now (digit_place order at width k) 0 }
{
    match order {
        Order::Little => bytes[at + k],
        Order::Big => bytes[at + (width - 1 - k)],
    }
}

// The number of N bytes at `at`, from its highest digit down. It is compiled into each reader below, where N is known: to one load, or
// a load and a byte swap.
#[tactic(auto, unfolding(crate::specs::Field::digits))]
#[inline(always)]
fn bytes_at<const N: usize>(bytes: &[u8], at: usize, order: Order) -> u64
    requires { (N ≤ 8) × (at + N ≤ length bytes.now) }
    ensures value { result ≡ field_of bytes.now at N order }
    ensures range { result < 256 ^ N }
{
    let mut number = 0;
    for k in 0..N {
        number = 256 * number + digit_at(bytes, at, N, N - 1 - k, order) as u64;
    }
    number
}

// The byte at `at`.
#[tactic(auto, using(crate::proofs::FieldLaws::byte_is))]
pub fn u8_at(bytes: &[u8], at: usize) -> u8
    requires { at + 1 ≤ length bytes.now }
    ensures { result ≡ byte_of bytes.now at }
{
    bytes[at]
}

// The number of 2 bytes at `at`.
pub fn u16_at(bytes: &[u8], at: usize, order: Order) -> u16
    requires { at + 2 ≤ length bytes.now }
    ensures { result ≡ field_of bytes.now at 2 order }
{
    match order {
        Order::Little => bytes_at::<2>(bytes, at, Order::Little) as u16,
        Order::Big => bytes_at::<2>(bytes, at, Order::Big) as u16,
    }
}

// The number of 4 bytes at `at`.
pub fn u32_at(bytes: &[u8], at: usize, order: Order) -> u32
    requires { at + 4 ≤ length bytes.now }
    ensures { result ≡ field_of bytes.now at 4 order }
{
    match order {
        Order::Little => bytes_at::<4>(bytes, at, Order::Little) as u32,
        Order::Big => bytes_at::<4>(bytes, at, Order::Big) as u32,
    }
}

// The number of 8 bytes at `at`.
pub fn u64_at(bytes: &[u8], at: usize, order: Order) -> u64
    requires { at + 8 ≤ length bytes.now }
    ensures { result ≡ field_of bytes.now at 8 order }
{
    match order {
        Order::Little => bytes_at::<8>(bytes, at, Order::Little),
        Order::Big => bytes_at::<8>(bytes, at, Order::Big),
    }
}

// The width that a code names: 1, 2, 4, 8 for 0, 1, 2, 3. By a shift, with no branch.
pub fn width_of(code: usize) -> usize
    requires { code ≤ 3 }
    ensures { result ≡ 2 ^ code }
{
    1 << code
}

// The number of 1, 2 or 4 bytes at `at`, by the code of its width.
#[tactic(auto, using(crate::proofs::FieldLaws::byte_in))]
pub fn field_at(bytes: &[u8], at: usize, code: usize, order: Order) -> u32
    requires { (code ≤ 2) × (at + 2 ^ code ≤ length bytes.now) }
    ensures { result ≡ field_of bytes.now at (2 ^ code) order }
{
    match code {
        0 => u8_at(bytes, at) as u32,
        1 => u16_at(bytes, at, order) as u32,
        _ => u32_at(bytes, at, order),
    }
}

// The number of 1, 2, 4 or 8 bytes at `at`, for any place and any code.
#[tactic(auto, unfolding(crate::specs::Computed::Number::number_of))]
pub fn number_at(bytes: &[u8], at: usize, code: usize, order: Order) -> Result<u64, NumberError>
    ensures { result ≡ number_of bytes.now at code order }
{
    if 3 < code {
        return Err(NumberError::NoWidth);
    }
    let width = width_of(code);
    if bytes.len() < width || bytes.len() - width < at {
        return Err(NumberError::Outside);
    }
    if code == 3 {
        Ok(u64_at(bytes, at, order))
    } else {
        Ok(field_at(bytes, at, code, order) as u64)
    }
}

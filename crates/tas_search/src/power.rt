//! Powers, and numbers of them, in decimal digits.
//!
//! No number of the machine holds how many sequences a search of some hundred choices has. So the digits of one are multiplied, the lowest
//! first, as on paper; by a power of the base at a time, the greatest that the machine's numbers allow.

ghost use Rattle.std.specs.Prelude.{◌≡◌, ◌*◌, ◌^◌, ◌<◌, ◌≤◌, reverse, IfOk};
ghost use Rattle.tas_search.specs.Power.{IsDecimal};
ghost use Rattle.tas_search.specs.Inside.Digits.{IsLow, low_value};

use std::alloc::{AllocError, Allocator};

/// The digits of the product of a number and a factor.
fn times<A: Allocator>(alloc: A, digits: &[u8], factor: usize) -> Result<Vec<u8, A>, AllocError>
    requires digits { IsLow digits.now (low_value digits.now) }
    requires low { 0 < factor }
    requires high { factor ≤ 2 ^ 60 }
    ensures { IfOk result (λ product. IsLow product.items (low_value digits.now * factor)) }
{
    let mut product = Vec::new(alloc);
    let mut carry = 0;
    for digit in digits {
        let sum = usize::from(*digit - b'0') * factor + carry;
        product.push(b'0' + (sum % 10) as u8)?;
        carry = sum / 10;
    }
    while carry > 0 {
        product.push(b'0' + (carry % 10) as u8)?;
        carry /= 10;
    }
    Ok(product)
}

/// The greatest factor by which digits are multiplied.
const GREATEST_FACTOR: usize = 1 << 60;

/// A power of a number, the greatest factor that is one, and its exponent.
fn greatest_power(base: usize) -> (usize, usize)
    requires low { 0 < base }
    requires high { base ≤ 2 ^ 60 }
    ensures power { result.0 ≡ base ^ result.1 }
    ensures low { 0 < result.0 }
    ensures high { result.0 ≤ 2 ^ 60 }
    ensures some { 0 < result.1 }
{
    let (mut factor, mut exponent) = (base, 1);
    while exponent < 60 && factor <= GREATEST_FACTOR / base {
        factor *= base;
        exponent += 1;
    }
    (factor, exponent)
}

/// The digits of a number that is multiplied so many times by a factor.
fn times_power<A: Allocator + Copy>(
    alloc: A,
    start: Vec<u8, A>,
    factor: usize,
    count: usize,
) -> Result<Vec<u8, A>, AllocError>
    requires digits { IsLow start.items (low_value start.items) }
    requires low { 0 < factor }
    requires high { factor ≤ 2 ^ 60 }
    ensures { IfOk result
        (λ digits. IsLow digits.items (low_value start.items * factor ^ count)) }
{
    let mut digits = start;
    for done in 0..count {
        digits = times(alloc, digits.as_slice(), factor)?;
    }
    Ok(digits)
}

/// The digits of a power.
fn power<A: Allocator + Copy>(
    alloc: A,
    base: usize,
    exponent: usize,
) -> Result<Vec<u8, A>, AllocError>
    requires low { 0 < base }
    requires high { base ≤ 2 ^ 60 }
    ensures { IfOk result (λ digits. IsLow digits.items (base ^ exponent)) }
{
    let mut one = Vec::new(alloc);
    one.push(b'1')?;
    let (factor, size) = greatest_power(base);
    let most = times_power(alloc, one, factor, exponent / size)?;
    let all = times_power(alloc, most, base, exponent % size)?;
    Ok(all)
}

/// The bytes in the reverse order.
fn reversed<A: Allocator>(alloc: A, bytes: &[u8]) -> Result<Vec<u8, A>, AllocError>
    ensures { IfOk result (λ all. all.items ≡ reverse bytes.now) }
{
    bytes.iter().rev().copied().collect(alloc)
}

/// A number of powers in decimal digits.
pub(crate) fn product_text<A: Allocator + Copy>(
    alloc: A,
    factor: usize,
    base: usize,
    exponent: usize,
) -> Result<Vec<u8, A>, AllocError>
    requires factor { factor ≤ 2 ^ 60 }
    requires low { 0 < base }
    requires high { base ≤ 2 ^ 60 }
    // The text is the number itself, whatever its size.
    // Refused: digits_are_multiplied_without_carry.
    ensures { IfOk result (λ text. IsDecimal text.items (factor * base ^ exponent)) }
{
    if factor == 0 {
        let zero = Vec::from_slice(alloc, b"0")?;
        return Ok(zero);
    }
    let digits = power(alloc, base, exponent)?;
    let product = times(alloc, digits.as_slice(), factor)?;
    let text = reversed(alloc, product.as_slice())?;
    Ok(text)
}

// Covariances: numbers in decimal or exponential form, with a signed power of ten.
ghost use Rattle.std.specs.Prelude.{◌≡◌, true, ◌≤◌, length};
ghost use Rattle.std.specs.List.{position};
ghost use Rattle.std.specs.Option.{option_copied};
ghost use Rattle.text.specs.Digits.{number};
ghost use Rattle.value.specs.Check.{less_value};
ghost use Rattle.value.specs.Covariance.{is_mark, mantissa, marked_exponent, is_exponent, is_scaled, power, scaled_as, covariance};

use crate::Value;
use crate::numeral::{Unsigned, is_digits};
use crate::sign::{bare, is_minus, with_sign};
use refusal::Kind;
use text::class;
use text::class::Class;
use text::digits::number;

// The most bytes of a covariance, less its sign.
const WIDTH: usize = 20;

// The whole number is given in two parts, high and low, by this number.
const PART_BASE: u64 = 10_000_000_000;

// A text as a covariance.
#[tactic(auto, unfolding(crate::specs::Covariance::covariance, crate::specs::Covariance::size))]
pub fn covariance(text: &[u8]) -> Result<Value, Kind>
    ensures { result ≡ covariance text.now }
{
    check_covariance(text)?;
    let rest = bare(text, true);
    let (mantissa, _) = halves(rest);
    Ok(in_parts(is_minus(text), mantissa, power(rest)))
}

// The same covariance checked without working out its value.
#[tactic(auto, unfolding(crate::specs::Covariance::covariance))]
pub fn check_covariance(text: &[u8]) -> Result<(), Kind>
    ensures { result ≡ less_value (covariance text.now) }
{
    let rest = bare(text, true);
    if WIDTH < rest.len() {
        return Err(Kind::TooWide);
    }
    if !is_scaled(rest) {
        return Err(Kind::WrongForm);
    }
    Ok(())
}

// Whether a text without sign is in decimal or exponential form.
#[tactic(auto, unfolding(crate::specs::Covariance::is_scaled))]
fn is_scaled(text: &[u8]) -> bool
    ensures { result ≡ is_scaled text.now }
{
    let (mantissa, exponent) = halves(text);
    Unsigned::of(mantissa).is_decimal() && exponent.is_none_or(is_exponent)
}

// Whether a text is an optional sign and one to three digits.
#[tactic(auto, unfolding(crate::specs::Covariance::is_exponent))]
fn is_exponent(text: &[u8]) -> bool
    ensures { result ≡ is_exponent text.now }
{
    let rest = bare(text, true);
    is_digits(rest) && rest.len() <= 3
}

// What stands before the first `e` or `E` of a text, and what stands after it, where there is one.
#[tactic(auto, using(crate::proofs::Scaled::mark_some, crate::proofs::Scaled::before_none, crate::proofs::Scaled::after_some, crate::proofs::Scaled::after_none))]
fn halves(text: &[u8]) -> (&[u8], Option<&[u8]>)
    ensures before { result.0.now ≡ mantissa text.now }
    ensures after { option_copied result.1 ≡ marked_exponent text.now }
{
    match mark(text) {
        Some(at) => (&text[..at], Some(&text[at + 1..])),
        None => (text, None),
    }
}

// Where the first `e` or `E` stands.
fn mark(text: &[u8]) -> Option<usize>
    ensures { result ≡ position is_mark text.now }
{
    text.iter().position(|byte| matches!(*byte, b'e' | b'E'))
}

// The power of ten of a covariance without sign.
#[tactic(auto, using(text::proofs::Numbers::number_small, text::proofs::Parts::take_below))]
fn power(text: &[u8]) -> i64
    requires { (length text.now ≤ 20) × (is_scaled text.now ≡ true) }
    ensures { result ≡ power text.now }
{
    let (mantissa, exponent) = halves(text);
    let exponent = exponent.unwrap_or(b"");
    let signed = with_sign(is_minus(exponent), number(exponent));
    signed - Unsigned::of(mantissa).places() as i64
}

// The whole number that the digits of a text of at most 20 bytes make, in two parts, with the sign before it and its power of ten.
// Two numbers of 64 bits are worked out in one loop: to divide one of 128 bits takes a routine that the C archive would have to bring.
#[tactic(auto, using(text::proofs::Classes::digit_range, crate::proofs::Scaled::parts_none, crate::proofs::Scaled::parts_room))]
fn in_parts(minus: bool, text: &[u8], power: i64) -> Value
    requires { length text.now ≤ 20 }
    ensures { result ≡ scaled_as minus (number 0 text.now) power }
{
    let mut high: u64 = 0;
    let mut low: u64 = 0;
    for byte in text {
        if class::is_of(Class::Digit, *byte) {
            let more = low * 10 + u64::from(*byte - b'0');
            high = high * 10 + more / PART_BASE;
            low = more % PART_BASE;
        }
    }
    Value::Scaled(minus & ((0 < high) | (0 < low)), high, low, power)
}

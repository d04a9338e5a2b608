//! Numbers in decimal.
ghost use Rattle.std.specs.Prelude.{◌≡◌, ◌+◌, ◌/◌, ◌%◌, ◌^◌, ◌<◌, ◌≤◌, [], ◌∷◌, ◌++◌, length, decimal, unwrap_or};

use arrayvec::ArrayString;

/// The most digits of a number of 128 bits.
const MOST: usize = 39;

/// The numbers below 100, each by two digits.
const PAIRS: &str = "\
    00010203040506070809101112131415161718192021222324\
    25262728293031323334353637383940414243444546474849\
    50515253545556575859606162636465666768697071727374\
    75767778798081828384858687888990919293949596979899";

/// The digit of a number below 10.
#[inline(always)]
#[tactic(auto, using(crate::proofs::Digits::digit_laws))]
fn digit(number: u8) -> &'static str
    requires { number < 10 }
    ensures { result.now ≡ (48 + number) ∷ [] }
{
    let start = usize::from(number) * 2 + 1;
    &PAIRS[start..start + 1]
}

/// The two digits of a number below 100.
#[inline(always)]
#[tactic(auto, using(crate::proofs::Digits::digit_laws))]
fn pair(number: u8) -> &'static str
    requires { number < 100 }
    ensures value { result.now ≡ (48 + number / 10) ∷ (48 + number % 10) ∷ [] }
    ensures len { length result.now ≡ 2 }
{
    let start = usize::from(number) * 2;
    &PAIRS[start..start + 2]
}

/// Appends a number of 64 bits.
#[tactic(auto, using(crate::proofs::Digits::digit_laws))]
fn push_digits(text: &mut ArrayString<MOST>, number: u64)
    requires { length text.old.bytes + length (decimal number) ≤ 39 }
    ensures bytes { text.new.bytes ≡ text.old.bytes ++ decimal number }
    ensures len { length text.new.bytes ≡ length text.old.bytes + length (decimal number) }
{
    if number < 10 {
        text.push_str(digit(number as u8));
    } else if number < 100 {
        text.push_str(pair(number as u8));
    } else {
        push_digits(text, number / 100);
        text.push_str(pair((number % 100) as u8));
    }
}

/// Appends a number: its last digits two by two, and what is left of it as one of 64 bits.
#[tactic(auto, using(crate::proofs::Digits::digit_laws))]
fn push_number(text: &mut ArrayString<MOST>, number: u128)
    requires { length text.old.bytes + length (decimal number) ≤ 39 }
    ensures bytes { text.new.bytes ≡ text.old.bytes ++ decimal number }
    ensures len { length text.new.bytes ≡ length text.old.bytes + length (decimal number) }
{
    match u64::try_from(number) {
        Ok(small) => push_digits(text, small),
        Err(_) => {
            push_number(text, number / 100);
            text.push_str(pair((number % 100) as u8));
        }
    }
}

/// A number in decimal, without leading zeros, in at most 39 digits.
#[tactic(auto, using(crate::proofs::Digits::digit_laws))]
pub fn decimal_text(number: u128) -> ArrayString<MOST>
    ensures text { result.bytes ≡ decimal number }
    ensures len_u8 { number < 2 ^ 8 → length result.bytes ≤ 3 }
    ensures len_u16 { number < 2 ^ 16 → length result.bytes ≤ 5 }
{
    let mut text = ArrayString::new();
    push_number(&mut text, number);
    text
}

/// A count of addresses in decimal: none is 2^128, for which a `u128` has no room.
pub fn count_text(count: Option<u128>) -> ArrayString<MOST>
    ensures { result.bytes ≡ decimal (unwrap_or count (2 ^ 128)) }
{
    match count {
        Some(count) => decimal_text(count),
        None => {
            let mut text = ArrayString::new();
            text.push_str("340282366920938463463374607431768211456");
            text
        }
    }
}

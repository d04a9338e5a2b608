//! Numbers as text: in decimal, in hexadecimal, and those of IEEE 754.
ghost use Rattle.std.specs.Prelude.{◌≡◌, ◌+◌, ◌*◌, ◌^◌, ◌<◌, ◌≤◌, ◌++◌, decimal, OnOk, IfSome};
ghost use Rattle.std.specs.Char.{digit_char};
ghost use Rattle.cidr_mmdb.specs.Numerals.{decimal_of, digits_of, double_text, exponent_text, finite_text, float_text, hexadecimal_text, is_near, nearest, places_text, quoted, shortest, sign_of, special_text};

use arrayvec::ArrayString;
use std::alloc::AllocError;
use std::fmt::Write;

/// Appends a number in decimal.
pub(crate) fn push_decimal(n: u128, out: &mut Vec<u8>) -> Result<(), AllocError>
    ensures { OnOk result (out.new.items ≡ out.old.items ++ decimal n) }
{
    let mut text = ArrayString::<39>::new();
    match write!(text, "{n}") {
        Ok(()) => out.extend_from_slice(text.as_bytes()),
        Err(_) => Err(AllocError),
    }
}

/// Appends the lowest digits of a number, so many; `power` is the base to the power of that.
pub(crate) fn push_digits(
    base: u8,
    power: u128,
    count: u32,
    n: u128,
    out: &mut Vec<u8>,
) -> Result<(), AllocError>
    requires some { 0 < base }
    requires few { base ≤ 16 }
    requires power { power ≡ base ^ count }
    ensures { OnOk result (out.new.items ≡ out.old.items ++ digits_of base count n) }
{
    let base = u128::from(base);
    let mut unit = power;
    let mut left = count;
    while left > 0 {
        unit = unit / base;
        left -= 1;
        out.push(digit((n / unit % base) as u8))?;
    }
    Ok(())
}

/// The digit, in lower case.
pub(crate) fn digit(digit: u8) -> u8
    requires { digit < 16 }
    ensures { result ≡ digit_char digit }
{
    if digit < 10 {
        b'0' + digit
    } else {
        b'a' + (digit - 10)
    }
}

/// Appends a binary64 by its bits.
pub(crate) fn push_double(bits: u64, out: &mut Vec<u8>) -> Result<(), AllocError>
    ensures { OnOk result (out.new.items ≡ out.old.items ++ double_text bits) }
{
    let negative = bits / 0x8000_0000_0000_0000 == 1;
    let exponent = (bits / 0x10_0000_0000_0000 % 2048) as u32;
    let fraction = bits % 0x10_0000_0000_0000;
    match exponent {
        2047 => push_special(negative, fraction, out),
        0 => push_finite(negative, 0, fraction, 1, out),
        _ => push_finite(negative, 1, fraction, exponent, out),
    }
}

/// Appends a binary32 by its bits.
pub(crate) fn push_float(bits: u32, out: &mut Vec<u8>) -> Result<(), AllocError>
    ensures { OnOk result (out.new.items ≡ out.old.items ++ float_text bits) }
{
    let negative = bits / 0x8000_0000 == 1;
    let exponent = bits / 0x80_0000 % 256;
    let fraction = u64::from(bits % 0x80_0000) * 0x2000_0000;
    match exponent {
        255 => push_special(negative, fraction, out),
        0 => push_finite(negative, 0, fraction, 897, out),
        _ => push_finite(negative, 1, fraction, exponent + 896, out),
    }
}

/// Appends infinity, or that it is no number.
fn push_special(negative: bool, fraction: u64, out: &mut Vec<u8>) -> Result<(), AllocError>
    ensures { OnOk result (out.new.items ≡ out.old.items ++ special_text negative fraction) }
{
    if fraction > 0 {
        return out.extend_from_slice(b"\"NaN\"");
    }
    if negative {
        return out.extend_from_slice(b"\"-Infinity\"");
    }
    out.extend_from_slice(b"\"Infinity\"")
}

/// Appends a number, in decimal or else in hexadecimal.
fn push_finite(
    negative: bool,
    lead: u64,
    fraction: u64,
    exponent: u32,
    out: &mut Vec<u8>,
) -> Result<(), AllocError>
    requires bit { lead < 2 }
    requires bits { fraction < 2 ^ 52 }
    requires few { exponent < 2048 }
    ensures { OnOk result (out.new.items ≡ out.old.items ++ finite_text negative lead fraction exponent) }
{
    match decimal_of(lead * 0x10_0000_0000_0000 + fraction, exponent) {
        Some((digits, places)) => push_places(negative, digits, places, out),
        None => push_hexadecimal(negative, lead, fraction, exponent, out),
    }
}

/// Appends a decimal with so many places.
fn push_places(
    negative: bool,
    digits: u128,
    places: u32,
    out: &mut Vec<u8>,
) -> Result<(), AllocError>
    requires { places ≤ 22 }
    ensures { OnOk result (out.new.items ≡ out.old.items ++ (sign_of negative ++ places_text (digits, places))) }
{
    let power = ten(places);
    push_sign(negative, out)?;
    push_decimal(digits / power, out)?;
    out.push(b'.')?;
    push_digits(10, power, places, digits, out)
}

/// Appends a number in hexadecimal, as a string of JSON.
fn push_hexadecimal(
    negative: bool,
    lead: u64,
    fraction: u64,
    exponent: u32,
    out: &mut Vec<u8>,
) -> Result<(), AllocError>
    ensures { OnOk result (out.new.items ≡ out.old.items ++ quoted (sign_of negative ++ hexadecimal_text lead fraction exponent)) }
{
    out.push(b'"')?;
    push_sign(negative, out)?;
    out.extend_from_slice(b"0x")?;
    push_digits(16, 16, 1, u128::from(lead), out)?;
    out.push(b'.')?;
    push_digits(16, 0x10_0000_0000_0000, 13, u128::from(fraction), out)?;
    out.push(b'p')?;
    push_exponent(exponent, out)?;
    out.push(b'"')?;
    Ok(())
}

/// Appends a minus sign, or nothing.
fn push_sign(negative: bool, out: &mut Vec<u8>) -> Result<(), AllocError>
    ensures { OnOk result (out.new.items ≡ out.old.items ++ sign_of negative) }
{
    out.extend_from_slice(if negative { b"-" } else { b"" })
}

/// Appends an exponent of two, with its sign.
fn push_exponent(exponent: u32, out: &mut Vec<u8>) -> Result<(), AllocError>
    ensures { OnOk result (out.new.items ≡ out.old.items ++ exponent_text exponent) }
{
    if exponent < 1023 {
        out.push(b'-')?;
        return push_decimal(u128::from(1023 - exponent), out);
    }
    out.push(b'+')?;
    push_decimal(u128::from(exponent - 1023), out)
}

/// The decimal of a number: its digits, and how many of these are places.
fn decimal_of(m: u64, exponent: u32) -> Option<(u128, u32)>
    requires { m < 2 ^ 53 }
    ensures value { result ≡ decimal_of m exponent }
    ensures few { IfSome result (λ number. number.1 ≤ 22) }
{
    if m == 0 {
        return Some((0, 1));
    }
    if exponent < 1005 {
        return None;
    }
    if exponent < 1076 {
        return shortest(m, two(1075 - exponent));
    }
    if exponent < 1087 {
        return Some((u128::from(m) * two(exponent - 1075) * 10, 1));
    }
    None
}

/// The decimal with the fewest places that reads as m / unit.
fn shortest(m: u64, unit: u128) -> Option<(u128, u32)>
    requires bits { m < 2 ^ 53 }
    requires some { 0 < unit }
    requires few { unit ≤ 2 ^ 70 }
    ensures value { result ≡ shortest m unit 1 22 }
    ensures few { IfSome result (λ number. number.1 ≤ 22) }
{
    let mut places: u32 = 1;
    let mut left: u32 = 22;
    while left > 0 {
        let power = ten(places);
        let digits = nearest(m, unit, power);
        if is_near(m, unit, power, digits) {
            return Some((digits, places));
        }
        places += 1;
        left -= 1;
    }
    None
}

/// m / unit in units of 1 / power: the nearest.
fn nearest(m: u64, unit: u128, power: u128) -> u128
    requires bits { m < 2 ^ 53 }
    requires some { 0 < unit }
    requires few { unit ≤ 2 ^ 70 }
    requires short { power ≤ 10 ^ 22 }
    ensures { result ≡ nearest m unit power }
{
    (2 * (u128::from(m) * power) + unit) / (2 * unit)
}

/// Whether that is nearer than half of what is between m / unit and the next binary64.
fn is_near(m: u64, unit: u128, power: u128, digits: u128) -> bool
    requires bits { m < 2 ^ 53 }
    requires some { 0 < unit }
    requires few { unit ≤ 2 ^ 70 }
    requires short { power ≤ 10 ^ 22 }
    requires nearest { digits ≡ nearest m unit power }
    ensures { result ≡ is_near m unit power }
{
    let distance = (digits * unit).abs_diff(u128::from(m) * power);
    if distance >= power {
        return false;
    }
    let times = if m == 0x10_0000_0000_0000 { 4 } else { 2 };
    distance * times < power
}

/// A power of ten.
fn ten(places: u32) -> u128
    requires { places ≤ 22 }
    ensures value { result ≡ 10 ^ places }
    ensures few { result ≤ 10 ^ 22 }
    ensures some { 0 < result }
{
    10u128.pow(places)
}

/// A power of two.
fn two(exponent: u32) -> u128
    requires { exponent ≤ 70 }
    ensures value { result ≡ 2 ^ exponent }
    ensures few { result ≤ 2 ^ 70 }
    ensures some { 0 < result }
{
    2u128.pow(exponent)
}

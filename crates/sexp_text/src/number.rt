//! The parts of a number text: a sign, digits, a point and an exponent.
ghost use Rattle.std.specs.Prelude.{◌≡◌, ◌+◌, ◌*◌, ◌^◌, ◌<◌, ◌≤◌, ◌++◌, ◌∷◌, ◌==◌, ◌||◌, ◌↔◌, [], Some, ℕ, List, Option, true, length, position, slice_index, EachIndex, IsTrue, IsSome, IsNone, IsSomeAnd, IfSome};
ghost use Rattle.std.specs.Option.{SomeIff};
ghost use Rattle.std.specs.Str.Parse.{AllDigits, digits_value, digits_value_after};
ghost use Rattle.sexp_text.specs.NumberTexts.{Number, Power, IsNumber, IsMantissa, IsPower, IsPlaces, IsNumberText, sign_bytes, point_bytes, power_bytes, behind, spelling, unsigned_spelling, right_by, left_by, right_of, left_of, decimal_of};
ghost use Rattle.sexp_text.specs.NumberParts.{is_either, IsFree, IsBare, IsOnlySplit, IsPowerText};

/// A sign in front of digits, or none.
#[derive(Clone, Copy, Debug, PartialEq, Eq)]
pub(crate) enum Sign {
    Bare,
    Plus,
    Minus,
}

/// A decimal: the digits times ten to the power of `right`, divided by ten to the power of `left`.
#[derive(Clone, Copy, Debug)]
pub(crate) struct Decimal {
    pub sign: Sign,
    pub digits: u128,
    pub right: u32,
    pub left: u32,
}

// The sign in front, and what follows it.
fn split_sign(text: &[u8]) -> (Sign, &[u8])
    ensures whole { text.now ≡ sign_bytes result.0 ++ result.1.now }
    ensures only { IsOnlySplit text.now result.0 result.1.now }
{
    let Some((first, rest)) = text.split_first() else {
        return (Sign::Bare, text);
    };
    if *first == b'+' {
        return (Sign::Plus, rest);
    }
    if *first == b'-' {
        return (Sign::Minus, rest);
    }
    (Sign::Bare, text)
}

// The place of the first of two marks.
fn place_of(text: &[u8], mark: u8, other: u8) -> Option<usize>
    ensures { result ≡ position (is_either mark other) text.now }
{
    text.iter().position(|c| *c == mark || *c == other)
}

// What stands before and behind the first of two marks.
fn cut(text: &[u8], mark: u8, other: u8) -> Option<(&[u8], &[u8])>
    ensures found { (front : List ℕ) (rest : List ℕ) (m : ℕ) → IsFree mark other front → is_either mark other m ≡ true → text.now ≡ front ++ m ∷ rest → IsSomeAnd result (λ r. (r.0.now ≡ front) × (r.1.now ≡ rest)) }
    ensures none { IsFree mark other text.now → IsNone result }
    ensures parts { IfSome result (λ r. (m : ℕ) × (is_either mark other m ≡ true) × (text.now ≡ r.0.now ++ m ∷ r.1.now)) }
{
    let at = place_of(text, mark, other)?;
    let (front, _) = text.split_at(at);
    let (_, rest) = text.split_at(at + 1);
    Some((front, rest))
}

fn in_digits_range(text: &[u8]) -> bool
    ensures { IsTrue result ↔ EachIndex text.now (λ k. (48 ≤ slice_index text.now k) × (slice_index text.now k ≤ 57)) }
{
    text.iter().all(|c| b'0' <= *c && *c <= b'9')
}

fn all_digits(text: &[u8]) -> bool
    ensures { IsTrue result ↔ AllDigits 10 text.now }
{
    in_digits_range(text)
}

// The number that the digits write when they follow those of the start.
fn value_after(start: u128, digits: &[u8]) -> u128
    requires digits { AllDigits 10 digits.now }
    requires fits { (start + 1) * 10 ^ length digits.now ≤ 10 ^ 38 }
    ensures value { result ≡ digits_value_after 10 start digits.now }
    ensures bound { result + 1 ≤ (start + 1) * 10 ^ length digits.now }
{
    let mut value = start;
    for c in digits {
        value = value * 10 + u128::from(*c - b'0');
    }
    value
}

// The number that the digits before and behind a point write together, and how many stand behind it.
fn read_digits(whole: &[u8], fraction: &[u8]) -> Option<(u128, u32)>
    ensures value { SomeIff result (IsMantissa whole.now fraction.now) (record { 0 = digits_value 10 (whole.now ++ fraction.now); 1 = length fraction.now }) }
    ensures bound { IfSome result (λ r. (r.0 < 10 ^ 30) × (r.1 ≤ 30)) }
{
    if whole.len() > 30 {
        return None;
    }
    if fraction.len() > 30 {
        return None;
    }
    let count = whole.len() + fraction.len();
    if count == 0 {
        return None;
    }
    if count > 30 {
        return None;
    }
    if !all_digits(whole) {
        return None;
    }
    if !all_digits(fraction) {
        return None;
    }
    let value = value_after(value_after(0, whole), fraction);
    Some((value, fraction.len() as u32))
}

// The digits with a point or without, and how many stand behind it.
fn read_mantissa(text: &[u8]) -> Option<(u128, u32)>
    ensures all { (whole : List ℕ) (fraction : Option (List ℕ)) → IsMantissa whole (behind fraction) → text.now ≡ whole ++ point_bytes fraction → result ≡ Some (record { 0 = digits_value 10 (whole ++ behind fraction); 1 = length (behind fraction) }) }
    ensures some { IsSome result → (whole : List ℕ) × (fraction : Option (List ℕ)) × IsMantissa whole (behind fraction) × (text.now ≡ whole ++ point_bytes fraction) }
    ensures bound { IfSome result (λ r. (r.0 < 10 ^ 30) × (r.1 ≤ 30)) }
{
    match cut(text, b'.', b'.') {
        None => read_digits(text, b""),
        Some((whole, fraction)) => read_digits(whole, fraction),
    }
}

// The number of places that the digits of an exponent write.
fn places_of(digits: &[u8]) -> Option<u32>
    ensures value { SomeIff result (IsPlaces digits.now) (digits_value 10 digits.now) }
    ensures bound { IfSome result (λ n. n < 1000) }
{
    if digits.is_empty() {
        return None;
    }
    if digits.len() > 3 {
        return None;
    }
    if !all_digits(digits) {
        return None;
    }
    Some(value_after(0, digits) as u32)
}

// By how many places an exponent moves the point to the right and to the left.
fn read_power(text: &[u8]) -> Option<(u32, u32)>
    ensures all { (p : Power) → IsPlaces p.digits → text.now ≡ sign_bytes p.sign ++ p.digits → result ≡ Some (record { 0 = right_of (Some p); 1 = left_of (Some p) }) }
    ensures some { IsSome result → IsPowerText text.now }
    ensures bound { IfSome result (λ r. (r.0 < 1000) × (r.1 < 1000)) }
{
    let (sign, digits) = split_sign(text);
    let places = places_of(digits)?;
    match sign {
        Sign::Minus => Some((0, places)),
        _ => Some((places, 0)),
    }
}

// The decimal that a text without its sign writes.
fn read_unsigned(sign: Sign, text: &[u8]) -> Option<Decimal>
    ensures all { (n : Number) → IsNumber n → n.sign ≡ sign → text.now ≡ unsigned_spelling n → result ≡ Some (decimal_of n) }
    ensures some { IsSome result → (n : Number) × IsNumber n × (n.sign ≡ sign) × (text.now ≡ unsigned_spelling n) }
    ensures bound { IfSome result (λ d. d.digits < 10 ^ 30) }
{
    match cut(text, b'e', b'E') {
        None => {
            let (digits, left) = read_mantissa(text)?;
            Some(Decimal {
                sign,
                digits,
                right: 0,
                left,
            })
        }
        Some((front, power)) => {
            let (digits, behind) = read_mantissa(front)?;
            let (right, left) = read_power(power)?;
            Some(Decimal {
                sign,
                digits,
                right,
                left: behind + left,
            })
        }
    }
}

/// The decimal that a number text writes, or `None` where the text is no number.
pub(crate) fn read_number(text: &[u8]) -> Option<Decimal>
    ensures all { (n : Number) → IsNumber n → text.now ≡ spelling n → result ≡ Some (decimal_of n) }
    ensures some { IsSome result → IsNumberText text.now }
    ensures bound { IfSome result (λ d. d.digits < 10 ^ 30) }
{
    let (sign, rest) = split_sign(text);
    read_unsigned(sign, rest)
}

ghost use Rattle.std.specs.Prelude.{◌≡◌, ◌<◌, ◌^◌, ℕ, ℤ, Some, FitsSigned};
ghost use Rattle.std.specs.Fmt.{decimal, signed_decimal};
ghost use Rattle.std.specs.Int.{w32};

/// The number that the word is in decimal digits.
pub fn number_of(word: &[u8]) -> Option<u64>
    ensures { (n : ℕ) → n < 2 ^ 64 → word.now ≡ decimal n → result ≡ Some n }
{
    let Ok(text) = str::from_utf8(word) else {
        return None;
    };
    match text.parse::<u64>() {
        Ok(number) => Some(number),
        Err(_) => None,
    }
}

/// The number of a hand that the word is.
pub fn hand_of(word: &[u8]) -> Option<u8>
    ensures { (n : ℕ) → n < 64 → word.now ≡ decimal n → result ≡ Some n }
{
    let number = number_of(word)?;
    if number >= 64 {
        return None;
    }
    Some(number as u8)
}

/// The number of 32 bits that the word is.
pub fn place_of(word: &[u8]) -> Option<u32>
    ensures { (n : ℕ) → n < 2 ^ 32 → word.now ≡ decimal n → result ≡ Some n }
{
    let number = number_of(word)?;
    if number > 4294967295 {
        return None;
    }
    Some(number as u32)
}

/// The status of a program that the word is.
pub fn status_of(word: &[u8]) -> Option<i32>
    ensures { (z : ℤ) → FitsSigned w32 z → word.now ≡ signed_decimal z → result ≡ Some z }
{
    let Ok(text) = str::from_utf8(word) else {
        return None;
    };
    match text.parse::<i32>() {
        Ok(number) => Some(number),
        Err(_) => None,
    }
}

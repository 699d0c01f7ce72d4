//! Decimal numbers in words.

ghost use Rattle.std.specs.Prelude.{◌≡◌, ◌≤◌, IfSome};
ghost use Rattle.std.specs.Str.{all_ascii_digits};
ghost use Rattle.sal_words.specs.Numbers.{number_within};

/// A number has at most so many digits.
const MOST_DIGITS: usize = 20;

// Whether each byte is a decimal digit.
fn is_digits(text: &str) -> bool
    ensures { result ≡ all_ascii_digits text.now }
{
    text.as_bytes().iter().all(|b| b.is_ascii_digit())
}

/// The number that a word is in decimal digits, without a sign, where it is within these bounds.
pub(crate) fn number(text: &str, least: u64, most: u64) -> Option<u64>
    ensures value { result ≡ number_within least most text.now }
    ensures within { IfSome result (λ n. (least ≤ n) × (n ≤ most)) }
{
    if text.len() > MOST_DIGITS || !is_digits(text) {
        return None;
    }
    let number = match text.parse::<u64>() {
        Ok(number) => number,
        Err(_) => return None,
    };
    if least <= number && number <= most {
        Some(number)
    } else {
        None
    }
}

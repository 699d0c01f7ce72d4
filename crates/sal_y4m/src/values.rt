//! The values of a header's parameters.

ghost use Rattle.std.specs.Prelude.{◌≡◌};
ghost use Rattle.sal_y4m.specs.Values.{number_of, ratio_of, side_of, rate_of, is_interlace, is_colour};

use sal_base::leading_number;

// A number of 1 to 10 digits, below 2 to the 32.
fn number(text: &[u8]) -> Option<u32>
    ensures { result ≡ number_of text.now }
{
    let (value, rest) = leading_number(text)?;
    if !rest.is_empty() {
        return None;
    }
    Some(value)
}

/// Two numbers with a colon between them.
pub fn ratio(text: &[u8]) -> Option<(u32, u32)>
    ensures { result ≡ ratio_of text.now }
{
    let (first, rest) = leading_number(text)?;
    let second = number(rest.strip_prefix(b":")?)?;
    Some((first, second))
}

/// A side, from 1 to this limit.
pub fn side(most: u16, text: &[u8]) -> Option<u16>
    ensures { result ≡ side_of most text.now }
{
    let side = number(text)?;
    if side < 1 || side > u32::from(most) {
        return None;
    }
    Some(side as u16)
}

/// A rate, both of whose numbers are at least 1, or `0:0`, which is 30 pictures in a second.
pub fn rate(text: &[u8]) -> Option<(u32, u32)>
    ensures { result ≡ rate_of text.now }
{
    if text == b"0:0".as_slice() {
        return Some((30, 1));
    }
    let (pictures, seconds) = ratio(text)?;
    if pictures < 1 || seconds < 1 {
        return None;
    }
    Some((pictures, seconds))
}

/// Whether this interlacing is progressive, or not known.
pub fn is_interlace(text: &[u8]) -> bool
    ensures { result ≡ is_interlace text.now }
{
    text == b"p".as_slice() || text == b"?".as_slice()
}

/// Whether these samples are 4:2:0 of 8 bits.
pub fn is_colour(text: &[u8]) -> bool
    ensures { result ≡ is_colour text.now }
{
    text == b"420".as_slice()
        || text == b"420jpeg".as_slice()
        || text == b"420mpeg2".as_slice()
        || text == b"420paldv".as_slice()
}

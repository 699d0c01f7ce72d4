//! The fields of a state as bytes of its digest.

ghost use Rattle.std.specs.Prelude.{◌≡◌, ◌∷◌, []};
ghost use Rattle.sal_bool.specs.Syntax.{bit_of};
ghost use Rattle.sal_state.specs.Digest.{two_bytes, signed_byte, signed_bytes};

use sal_header::Kept;

// A number of 16 bits, the high byte first.
pub(crate) fn two_bytes(number: u16) -> [u8; 2]
    ensures { result ≡ two_bytes number }
{
    [(number / 256) as u8, (number % 256) as u8]
}

// A signed byte in two's complement.
fn signed_byte(value: i8) -> u8
    ensures { result ≡ signed_byte value }
{
    if value < 0 {
        255 - (-1 - value as i32) as u8
    } else {
        value as u8
    }
}

// Four of them.
pub(crate) fn signed_bytes(values: &[i8; 4]) -> [u8; 4]
    ensures { result ≡ signed_bytes values.now }
{
    [
        signed_byte(values[0]),
        signed_byte(values[1]),
        signed_byte(values[2]),
        signed_byte(values[3]),
    ]
}

// The mode of the segments: 1 where their data are absolute.
pub(crate) fn mode_byte(kept: &Kept) -> [u8; 1]
    ensures { result ≡ bit_of kept.now.absolute ∷ [] }
{
    [kept.absolute as u8]
}

// The sign biases of golden and alt.
pub(crate) fn bias_bytes(kept: &Kept) -> [u8; 2]
    ensures { result ≡ bit_of kept.now.bias_golden ∷ bit_of kept.now.bias_alt ∷ [] }
{
    [kept.bias_golden as u8, kept.bias_alt as u8]
}

//! How many bytes bits are written as.

ghost use Rattle.std.specs.Prelude.{◌≤◌, ℕ, List, Bool, length};
ghost use Rattle.sal_bool.specs.Bits.{start};
ghost use Rattle.sal_bool.specs.Written.{steps, written};
ghost use Rattle.sal_bool.specs.Sizes.{bytes_at_most};

/// An interval is doubled at most seven times for a bit, so that n bits are written as at most `2 + 7 * n / 8` bytes.
pub fn written_in_few_bytes()
    ensures { (xs : List (ℕ × Bool)) → length (written (steps start xs)) ≤ bytes_at_most (length xs) }
{}

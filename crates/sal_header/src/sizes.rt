//! How many bits a header takes.

ghost use Rattle.std.specs.Prelude.{◌≡◌, Bool, length};
ghost use Rattle.sal_bool.specs.Sizes.{TakesAtMost};
ghost use Rattle.sal_header.specs.declared.header.Kept.{Kept};
ghost use Rattle.sal_header.specs.Headers.{header_of};

/// A header takes at most 10,125 bits, whatever a state keeps.
pub fn header_in_few_bits()
    ensures { (key shown : Bool) (kept : Kept) → length kept.ref_deltas ≡ 4 → length kept.mode_deltas ≡ 4 → TakesAtMost (header_of key shown kept) 10125 }
{}

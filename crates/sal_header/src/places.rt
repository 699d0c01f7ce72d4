//! The places of the token partitions (RFC 6386, section 9.5).

ghost use Rattle.std.specs.Prelude.{◌≡◌, ◌≤◌, ◌+◌, ◌-◌, ◌*◌, ◌^◌, ℕ, [], ◌∷◌, ◌++◌, length, take, drop, replicate, slice_index_or, Ok, Err, IfOk, IfErr};
ghost use Rattle.sal_header.specs.Tags.{head_length, parts_of, placed, bytes_at, parts_start, AreInside};

use crate::tag::{Tag, head_length, number_at};
use sal_base::Fault;

/// The place and length of each token partition, in the order of their indexes.
#[derive(Clone, Copy, Debug, PartialEq, Eq)]
pub struct Parts {
    /// How many there are: 1, 2, 4 or 8.
    pub count: u8,
    /// The first `count` entries; the others stand for no partition, and are 0.
    pub at: [(usize, usize); 8],
}

/// The places of the token partitions behind the first partition, or the first one that passes the end. One after the other they
/// are all bytes behind the table of their sizes.
#[tactic(auto, unfolding(crate::specs::Tags::parts_of))]
pub fn partitions(bytes: &[u8], tag: &Tag, log2: u8) -> Result<Parts, Fault>
    requires { log2 ≤ 3 }
    ensures count { IfOk result (λ p. p.count ≡ 2 ^ log2) }
    ensures parts { IfOk result (λ p. parts_of bytes.now tag.now log2 ≡ Ok (take p.count p.at)) }
    ensures fault { IfErr result (λ f. parts_of bytes.now tag.now log2 ≡ Err f) }
    ensures inside { IfOk result (λ p. head_length tag.now.key + tag.now.size ≤ length bytes.now → AreInside (length bytes.now) p.at p.count) }
    ensures rest { IfOk result (λ p. bytes_at bytes.now (take p.count p.at) ≡ drop (parts_start tag.now log2) bytes.now) }
    ensures end { IfOk result (λ p. head_length tag.now.key + tag.now.size ≤ length bytes.now → (slice_index_or p.at (p.count - 1) (0, 0)).0 + (slice_index_or p.at (p.count - 1) (0, 0)).1 ≡ length bytes.now) }
    ensures others { IfOk result (λ p. drop p.count p.at ≡ replicate (8 - p.count) (0, 0)) }
{
    let table = head_length(tag.key) + tag.size as usize;
    let count = count_of(log2);
    let sized = count - 1;
    if bytes.len().saturating_sub(table) < 3 * sized {
        return Err(Fault::Partition(0));
    }
    let mut at = [(0, 0); 8];
    let place = put_sized(bytes, table, sized, &mut at)?;
    at[sized] = (place, bytes.len().saturating_sub(place));
    Ok(Parts {
        count: count as u8,
        at,
    })
}

// How many partitions there are.
fn count_of(log2: u8) -> usize
    requires { log2 ≤ 3 }
    ensures count { result ≡ 2 ^ log2 }
    ensures some { 1 ≤ result }
    ensures few { result ≤ 8 }
{
    1 << log2
}

// The partitions whose sizes stand in the table, and the place after them.
fn put_sized(
    bytes: &[u8],
    table: usize,
    sized: usize,
    at: &mut [(usize, usize); 8],
) -> Result<usize, Fault>
    requires few { sized ≤ 7 }
    requires table { 3 * sized ≤ length bytes.now - table }
    requires near { table ≤ 4294967305 }
    ensures parts { IfOk result (λ place. placed bytes.now table 0 sized (table + 3 * sized) ≡ Ok (take sized at.new ++ (place, length bytes.now - place) ∷ [])) }
    ensures long { length at.new ≡ 8 }
    ensures others { (n : ℕ) → sized ≤ n → drop n at.new ≡ drop n at.old }
    ensures fault { IfErr result (λ f. placed bytes.now table 0 sized (table + 3 * sized) ≡ Err f) }
    ensures inside { IfOk result (λ place. table ≤ length bytes.now → (place ≤ length bytes.now) × AreInside (length bytes.now) at.new sized) }
{
    let mut place = table + 3 * sized;
    for k in 0..sized {
        let size = number_at(bytes, table + 3 * k) as usize;
        if bytes.len().saturating_sub(place) < size {
            return Err(Fault::Partition(k as u8));
        }
        at[k] = (place, size);
        place += size;
    }
    Ok(place)
}

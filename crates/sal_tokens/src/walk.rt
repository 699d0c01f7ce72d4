//! Walks a block's coefficients and hands each bit that they are written as to a sink, so that what is put and what is counted can't
//! differ (RFC 6386, sections 13 and 19.3).

ghost use Rattle.std.specs.Prelude.{◌≡◌, ◌<◌, ◌≤◌, ◌+◌, ◌++◌, ℕ, List, All, Some, length, drop, unsigned_abs, OnOk, IfOk, IsTrue, if◌then◌else◌, nat_lt, []};
ghost use Rattle.sal_macroblock.specs.Sizes.{Within};
ghost use Rattle.sal_bool.specs.Pairs.{number_pairs};
ghost use Rattle.sal_tokens.specs.Coefficients.{first_position};
ghost use Rattle.sal_tokens.specs.Written.{taken_all, placed, fixed, token_of, token_branches, extra_branches, sign_branches, row_at, trimmed, block_branches, is_some_block, are_small};

use crate::read::first_position;
use crate::sink::Sink;
use crate::ways::{Step, way_after};
use sal_macroblock::Block;
use sal_tables::{bands, category_bases, category_bits};

// The bits of a block of a kind in a context, and whether its first token isn't the end of the block.
pub(crate) fn walk_block<S: Sink>(
    sink: &mut S,
    table: &S::Table,
    kind: u8,
    context: u8,
    block: &Block,
) -> Result<bool, S::Refusal>
    requires kind { kind ≤ 3 }
    requires context { context ≤ 2 }
    requires small { All (Within 2114) block.now.0 }
    ensures bits { OnOk result (sink.new ≡ taken_all (S.after table.now) sink.old (block_branches kind context block.now.0)) }
    ensures starts { IfOk result (λ b. b ≡ is_some_block kind block.now.0) }
    ensures long { OnOk result (length block.now.0 ≡ 16) }
{
    let kind = kind as usize;
    let first = first_position(kind);
    let end = end_of(first, &block.0);
    let mut context = context as usize;
    let mut after_zero = false;
    for position in first..end {
        let coefficient = block.0[position];
        let row = row_at(kind, position, context);
        walk_coefficient(sink, table, row, after_zero, coefficient)?;
        let size = coefficient.unsigned_abs();
        context = size.min(2) as usize;
        after_zero = size == 0;
    }
    walk_end(sink, table, kind, end, context, after_zero)?;
    Ok(first < end)
}

// The end of a block, where positions are left.
fn walk_end<S: Sink>(
    sink: &mut S,
    table: &S::Table,
    kind: usize,
    position: usize,
    context: usize,
    after_zero: bool,
) -> Result<(), S::Refusal>
    requires kind { kind ≤ 3 }
    requires position { position ≤ 16 }
    requires context { context ≤ 2 }
    ensures { OnOk result (sink.new ≡ taken_all (S.after table.now) sink.old (if nat_lt position 16 then token_branches (row_at kind position context) after_zero 0 else [])) }
{
    if position < 16 {
        let row = row_at(kind, position, context);
        walk_token(sink, table, row, after_zero, 0)
    } else {
        Ok(())
    }
}

// How many of the sixteen stand before the end of the block; none of them is before the first position.
fn end_of(first: usize, coefficients: &[i32; 16]) -> usize
    requires { first ≤ 16 }
    ensures end { result ≡ first + length (trimmed (drop first coefficients.now)) }
    ensures long { (result ≤ 16) × (result ≤ length coefficients.now) }
{
    for i in (first..16usize).rev() {
        if coefficients[i] != 0 {
            return i + 1;
        }
    }
    first
}

// The place of the first of a token's eleven probabilities.
#[tactic(auto, using(sal_tables::proofs::Ranges::at_most), unfolding(crate::specs::Written::row_at))]
fn row_at(kind: usize, position: usize, context: usize) -> usize
    requires kind { kind ≤ 3 }
    requires position { position < 16 }
    requires context { context ≤ 2 }
    ensures row { result ≡ row_at kind position context }
    ensures all { result + 11 ≤ 1056 }
{
    let band = bands()[position] as usize;
    ((kind * 8 + band) * 3 + context) * 11
}

// A coefficient: its token, its extra bits and its sign.
fn walk_coefficient<S: Sink>(
    sink: &mut S,
    table: &S::Table,
    row: usize,
    after_zero: bool,
    coefficient: i32,
) -> Result<(), S::Refusal>
    requires row { row + 11 ≤ 1056 }
    requires small { Within 2114 coefficient }
    ensures { OnOk result (sink.new ≡ taken_all (S.after table.now) sink.old (token_branches row after_zero (token_of (unsigned_abs coefficient)) ++ (extra_branches (unsigned_abs coefficient) ++ sign_branches coefficient))) }
{
    let size = coefficient.unsigned_abs();
    walk_token(sink, table, row, after_zero, token_of(size))?;
    walk_extra(sink, table, size)?;
    walk_sign(sink, table, coefficient)?;
    Ok(())
}

// The token of a size: up to 4 its own, then its category's.
fn token_of(size: u32) -> u8
    requires { size ≤ 2114 }
    ensures token { result ≡ token_of size }
    ensures small { (0 < result) × (result < 12) }
{
    if size < 5 {
        size as u8 + 1
    } else if size < 7 {
        6
    } else if size < 11 {
        7
    } else if size < 19 {
        8
    } else if size < 35 {
        9
    } else if size < 67 {
        10
    } else {
        11
    }
}

// A token. After a zero the end isn't tested.
fn walk_token<S: Sink>(
    sink: &mut S,
    table: &S::Table,
    row: usize,
    after_zero: bool,
    token: u8,
) -> Result<(), S::Refusal>
    requires row { row + 11 ≤ 1056 }
    requires token { token < 12 }
    ensures { OnOk result (sink.new ≡ taken_all (S.after table.now) sink.old (token_branches row after_zero token)) }
{
    walk_way(sink, table, row, way_after(after_zero, token))
}

// The bits on the way to a leaf.
fn walk_way<S: Sink>(
    sink: &mut S,
    table: &S::Table,
    row: usize,
    way: &[Step],
) -> Result<(), S::Refusal>
    requires row { row + 11 ≤ 1056 }
    requires way { IsTrue (are_small way.now) }
    ensures { OnOk result (sink.new ≡ taken_all (S.after table.now) sink.old (placed row (Some way.now))) }
{
    for step in way {
        sink.placed(table, row + step.0 as usize, step.1)?;
    }
    Ok(())
}

// The extra bits of a size above 4: how far it lies above the least of its category.
fn walk_extra<S: Sink>(sink: &mut S, table: &S::Table, size: u32) -> Result<(), S::Refusal>
    requires { size ≤ 2114 }
    ensures { OnOk result (sink.new ≡ taken_all (S.after table.now) sink.old (extra_branches size)) }
{
    if size < 5 {
        return Ok(());
    }
    let category = token_of(size) as usize - 6;
    let extra = size - category_bases()[category] as u32;
    walk_number(sink, table, category_bits(category), extra)
}

// A number by its bits at these probabilities, highest first.
fn walk_number<S: Sink>(
    sink: &mut S,
    table: &S::Table,
    probabilities: &[u8],
    number: u32,
) -> Result<(), S::Refusal>
    requires { length probabilities.now ≤ 11 }
    ensures { OnOk result (sink.new ≡ taken_all (S.after table.now) sink.old (fixed (number_pairs probabilities.now number))) }
{
    let count = probabilities.len();
    for i in 0..count {
        sink.fixed(
            table,
            probabilities[i],
            (number >> (count - 1 - i)) % 2 >= 1,
        )?;
    }
    Ok(())
}

// A coefficient other than 0 has a sign.
#[tactic(auto, unfolding(crate::specs::Written::sign_branches, crate::specs::Written::taken_all))]
fn walk_sign<S: Sink>(sink: &mut S, table: &S::Table, coefficient: i32) -> Result<(), S::Refusal>
    requires { Within 2114 coefficient }
    ensures { OnOk result (sink.new ≡ taken_all (S.after table.now) sink.old (sign_branches coefficient)) }
{
    if coefficient == 0 {
        Ok(())
    } else {
        sink.fixed(table, 128, coefficient < 0)
    }
}

//! Edges whose places are filtered side by side: the samples around eight places of an edge as eight rows of eight
//! lanes, so that the compiler filters all lanes by one instruction.

ghost use Rattle.std.specs.Prelude.{◌≡◌, ℕ, ◌+◌, ◌-◌, ◌*◌, ◌<◌, ◌≤◌, length, slice_index};
ghost use Rattle.sal_filter.specs.Filtered.{edge_filtered};
ghost use Rattle.sal_filter.specs.Lanes.{row_put, rows_put, lane};

use crate::edge::{Edge, Sort, filter_places};

// Row `row` of the lanes out of samples that are `along` apart.
#[inline(always)]
fn gather_row(samples: &[u8], from: usize, along: usize, lanes: &mut [u8], row: usize)
    requires samples { (i : ℕ) → i < 8 → from + i * along < length samples.now }
    requires lanes { length lanes.old ≡ 64 }
    requires row { row < 8 }
    ensures gathered { (i : ℕ) → i < 8 → lane lanes.new row i ≡ slice_index samples.now (from + i * along) }
    ensures kept { (j : ℕ) → j < 8 * row → slice_index lanes.new j ≡ slice_index lanes.old j }
{
    for i in 0..8usize {
        lanes[8 * row + i] = samples[from + i * along];
    }
}

// All rows, which are `step` apart.
#[inline(always)]
fn gather(samples: &[u8], from: usize, step: usize, along: usize, lanes: &mut [u8])
    requires samples { (k i : ℕ) → k < 8 → i < 8 → from + k * step + i * along < length samples.now }
    requires lanes { length lanes.old ≡ 64 }
    ensures { (k i : ℕ) → k < 8 → i < 8 → lane lanes.new k i ≡ slice_index samples.now (from + k * step + i * along) }
{
    for k in 0..8usize {
        gather_row(samples, from + k * step, along, lanes, k);
    }
}

#[inline(always)]
fn scatter_row(samples: &mut [u8], from: usize, along: usize, lanes: &[u8], row: usize)
    requires samples { (i : ℕ) → i < 8 → from + i * along < length samples.old }
    requires lanes { length lanes.now ≡ 64 }
    requires row { row < 8 }
    ensures { samples.new ≡ row_put from along (lane lanes.now row) 8 samples.old }
{
    for i in 0..8usize {
        samples[from + i * along] = lanes[8 * row + i];
    }
}

// The six rows that a filter may move.
#[inline(always)]
fn scatter(samples: &mut [u8], from: usize, step: usize, along: usize, lanes: &[u8])
    requires samples { (k i : ℕ) → k < 8 → i < 8 → from + k * step + i * along < length samples.old }
    requires lanes { length lanes.now ≡ 64 }
    ensures { samples.new ≡ rows_put from step along (lane lanes.now) 8 6 samples.old }
{
    for k in 0..6usize {
        scatter_row(samples, from + (k + 1) * step, along, lanes, k + 1);
    }
}

fn filter_lanes(edge: &Edge, lanes: &mut [u8])
    requires { length lanes.old ≡ 64 }
    ensures { lanes.new ≡ edge_filtered edge.now 32 8 1 8 lanes.old }
{
    match edge.sort {
        Sort::Simple => filter_places(Sort::Simple, edge, lanes, 32, 8, 1, 8),
        Sort::Inner => filter_places(Sort::Inner, edge, lanes, 32, 8, 1, 8),
        Sort::Outer => filter_places(Sort::Outer, edge, lanes, 32, 8, 1, 8),
    }
}

// Eight places.
#[inline(always)]
fn filter_eight(edge: &Edge, samples: &mut [u8], at: usize, step: usize, along: usize)
    requires before { 4 * step ≤ at }
    requires after { (n : ℕ) → n < 8 → at + n * along + 3 * step < length samples.old }
    requires apart { (d m : ℕ) → d ≤ 7 → 1 ≤ m → m < 8 → d * step ≡ m * along → ⊥ }
    ensures { samples.new ≡ edge_filtered edge.now at step along 8 samples.old }
{
    let mut lanes = [0u8; 64];
    let from = at - 4 * step;
    gather(samples, from, step, along, &mut lanes);
    filter_lanes(edge, &mut lanes);
    scatter(samples, from, step, along, &lanes);
}

/// Filters `8 * eights` places of an edge from `at` on, `along` apart; the samples across it are `step` apart. No two of
/// eight places share a sample.
#[inline(always)]
pub fn filter_edge(
    edge: &Edge,
    samples: &mut [u8],
    at: usize,
    step: usize,
    along: usize,
    eights: usize,
)
    requires before { 4 * step ≤ at }
    requires after { (n : ℕ) → n < 8 * eights → at + n * along + 3 * step < length samples.old }
    requires apart { (d m : ℕ) → d ≤ 7 → 1 ≤ m → m < 8 → d * step ≡ m * along → ⊥ }
    ensures { samples.new ≡ edge_filtered edge.now at step along (8 * eights) samples.old }
{
    for part in 0..eights {
        filter_eight(edge, samples, at + 8 * part * along, step, along);
    }
}

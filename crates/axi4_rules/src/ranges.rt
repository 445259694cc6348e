//! The ranges of a port's numbers.

ghost use Rattle.std.specs.Prelude.{◌≡◌, ◌≤◌, ◌==◌, nat_lt};
ghost use Rattle.std.specs.List.{list_all, list_any};
ghost use Rattle.axi4_rules.specs.Ports.{is_between, is_data_width, are_sizes};
ghost use Rattle.axi4_rules.specs.Ports.{are_different, are_ids};
ghost use Rattle.axi4_rules.specs.Drafts.{size_data};

use crate::sizes::Sizes;

fn is_between(low: u32, high: u32, number: u32) -> bool
    ensures { result ≡ is_between low high number }
{
    low <= number && number <= high
}

fn is_data_width(number: u32) -> bool
    ensures { result ≡ is_data_width number }
{
    number == 8 || number == 16 || number == 32 || number == 64 || number == 128
}

/// Whether the numbers are in their ranges.
#[tactic(auto, unfolding(crate::specs::Ports::are_sizes))]
pub(crate) fn are_sizes(sizes: Sizes) -> bool
    ensures { result ≡ are_sizes (size_data sizes) }
{
    is_between(12, 64, sizes.addr)
        && is_data_width(sizes.data_width)
        && is_between(1, 16, sizes.id)
        && sizes.wait <= 64
}

/// Whether the number is among the others.
fn holds(numbers: &[u32], wanted: u32) -> bool
    ensures { result ≡ list_any (λ n. n == wanted) numbers.now }
{
    for number in numbers {
        if *number == wanted {
            return true;
        }
    }
    false
}

/// Whether no number stands twice.
fn are_different(numbers: &[u32]) -> bool
    ensures { result ≡ are_different numbers.now }
{
    for index in 0..numbers.len() {
        if holds(&numbers[index + 1..], numbers[index]) {
            return false;
        }
    }
    true
}

/// Whether all numbers are below the limit.
fn are_below(numbers: &[u32], limit: u32) -> bool
    ensures { result ≡ list_all (λ n. nat_lt n limit) numbers.now }
{
    for number in numbers {
        if *number >= limit {
            return false;
        }
    }
    true
}

/// Whether these can be watched where IDs have so many bits.
#[tactic(auto, unfolding(crate::specs::Ports::are_ids))]
pub(crate) fn are_ids(width: u32, ids: &[u32]) -> bool
    requires { width ≤ 16 }
    ensures { result ≡ are_ids width ids.now }
{
    ids.len() <= 16 && are_below(ids, 1 << width) && are_different(ids)
}

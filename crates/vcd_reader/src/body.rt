//! The times and changes of a dump.

ghost use Rattle.std.specs.Prelude.{◌≡◌, ℕ, ◌<◌, ◌≤◌, ◌+◌, ◌++◌, List, map, length, drop, Ok, Err};
ghost use Rattle.std.specs.Prelude.{Some, IfOk, IfSome, slice_range, Result, Option, nat_lt};
ghost use Rattle.vcd_reader.specs.Faults.{Gives, read_on};
ghost use Rattle.vcd_reader.specs.Variables.{place_of};
ghost use Rattle.vcd_reader.specs.Index.{codes_in};
ghost use Rattle.vcd_reader.specs.Stored.{stored_change, stored_step};
ghost use Rattle.vcd_reader.specs.Body.{kind_of, is_lone_word, missing_fault, most_changes, body};
ghost use Rattle.vcd_reader.specs.Body.{section, steps_of};
ghost use Rattle.vcd_reader.specs.Kept.{seen_kind, kept_result, kept_steps, with_next_item};
ghost use Rattle.vcd_reader.specs.Kept.{code_item, scalar_item, Extends};
ghost use Rattle.vcd_reader.specs.Sections.{tokens_at};

use crate::codes::Codes;
use crate::fault::{Fault, ReadError};
use crate::header::is_code;
use crate::item::{Item, Seen};
use crate::number::{bit_value, bits, decimal, is_bit_digit};
use crate::packed::find_code;
use crate::step::{Change, Step};
use crate::token::next_token;
use std::alloc::{AllocError, Global};

fn is_lone(text: &[u8]) -> bool
    ensures { result ≡ is_lone_word text.now }
{
    text == b"$dumpvars".as_slice()
        || text == b"$dumpall".as_slice()
        || text == b"$dumpon".as_slice()
        || text == b"$dumpoff".as_slice()
        || text == b"$end".as_slice()
}

#[tactic(auto, unfolding(crate::specs::Body::kind_of))]
fn classify(text: &[u8]) -> Seen
    ensures { result ≡ seen_kind (kind_of text.now) }
{
    match text {
        [] => Seen::Bad,
        [b'#', digits @ ..] => match decimal(digits, u64::MAX) {
            None => Seen::Bad,
            Some(time) => Seen::Time(time),
        },
        [b'b' | b'B'] => Seen::Bad,
        [b'b' | b'B', digits @ ..] => match bits(digits) {
            None => Seen::Bad,
            Some(value) => Seen::Vector(value),
        },
        [b'r' | b'R' | b's' | b'S', ..] => Seen::Text,
        [b'$', ..] => {
            if is_lone(text) {
                Seen::Lone
            } else {
                Seen::Section
            }
        }
        [digit, ..] => {
            if is_bit_digit(*digit) {
                Seen::Scalar(bit_value(*digit))
            } else {
                Seen::Bad
            }
        }
    }
}

/// The end of the section whose word stands at `word`.
fn section_end(bytes: &[u8], start: usize, word: usize) -> Result<usize, Fault>
    requires { start ≤ length bytes.now }
    ensures high { IfOk result (λ end. (start < end) × (end ≤ length bytes.now)) }
    ensures section { (declared : List (List ℕ)) (len count now : ℕ)
        → section declared len count now word (tokens_at bytes.now start)
        ≡ read_on result (λ end. body declared len count now (tokens_at bytes.now end)) }
{
    let mut at = start;
    'sections: loop {
        let Some((from, end)) = next_token(bytes, at) else {
            return Err(Fault::UnclosedSection(word));
        };
        if &bytes[from..end] == b"$end".as_slice() {
            return Ok(end);
        }
        at = end;
    }
}

/// Why the code is not the header's.
fn missing_code(code: &[u8], at: usize) -> Fault
    ensures { result ≡ missing_fault code.now at }
{
    if is_code(code) {
        Fault::UnknownCode(at)
    } else {
        Fault::BadToken(at)
    }
}

/// The change of a code to a value.
fn change_of(codes: &Codes, code: &[u8], value: u128, at: usize) -> Result<Item, Fault>
    ensures { result
        ≡ code_item (place_of (codes_in codes.now.variables.now) code.now) code.now value at }
{
    match find_code(codes, code) {
        None => Err(missing_code(code, at)),
        Some(number) => Ok(Item::Changed(number, value)),
    }
}

/// The change that a scalar's token names.
#[tactic(auto, using(crate::proofs::BodyLaws::scalars))]
fn scalar_change(
    bytes: &[u8],
    from: usize,
    end: usize,
    codes: &Codes,
    value: u128,
) -> Result<Item, Fault>
    requires order { from < end }
    requires inside { end ≤ length bytes.now }
    ensures { result ≡ scalar_item (codes_in codes.now.variables.now) (length bytes.now)
        (slice_range bytes.now (from + 1) end) value from }
{
    if from + 1 == end {
        if end == bytes.len() {
            return Err(Fault::Truncated);
        }
        return Err(Fault::BadToken(from));
    }
    change_of(codes, &bytes[from + 1..end], value, from)
}

/// The next item of the body, and where it ends.
#[tactic(auto, using(crate::proofs::BodyLaws::items))]
pub(crate) fn next_item(
    bytes: &[u8],
    at: usize,
    codes: &Codes,
) -> Result<Option<(Item, usize)>, Fault>
    requires { at ≤ length bytes.now }
    ensures high { IfOk result (λ r. IfSome r (λ p. (at < p.1) × (p.1 ≤ length bytes.now))) }
    ensures item { (count now : ℕ)
        → kept_result (body (codes_in codes.now.variables.now) (length bytes.now) count now
        (tokens_at bytes.now at))
        ≡ with_next_item result count now
        (λ c n end. kept_result (body (codes_in codes.now.variables.now) (length bytes.now) c n
        (tokens_at bytes.now end))) }
{
    let Some((from, end)) = next_token(bytes, at) else {
        return Ok(None);
    };
    match classify(&bytes[from..end]) {
        Seen::Time(time) => Ok(Some((Item::Timed(time, from), end))),
        Seen::Scalar(value) => {
            let item = scalar_change(bytes, from, end, codes, value)?;
            Ok(Some((item, end)))
        }
        Seen::Vector(value) => {
            let Some((from, end)) = next_token(bytes, end) else {
                return Err(Fault::Truncated);
            };
            let item = change_of(codes, &bytes[from..end], value, from)?;
            Ok(Some((item, end)))
        }
        Seen::Text => {
            let Some((_, end)) = next_token(bytes, end) else {
                return Err(Fault::Truncated);
            };
            Ok(Some((Item::Skipped, end)))
        }
        Seen::Lone => Ok(Some((Item::Skipped, end))),
        Seen::Section => {
            let end = section_end(bytes, end, from)?;
            Ok(Some((Item::Skipped, end)))
        }
        Seen::Bad => Err(Fault::BadToken(from)),
    }
}

/// Whether a dump that has so many changes may have one more.
pub(crate) fn has_room(count: u32) -> bool
    ensures { result ≡ nat_lt count most_changes }
{
    count < u32::MAX
}

/// The change as it is stored; the high part of a value from 2^64 on goes into `high`.
pub(crate) fn new_change(high: &mut Vec<u64>, code: u32, value: u128) -> Result<Change, AllocError>
    requires { length high.old.items < 4294967295 }
    ensures grows { IfOk result (λ c. Extends high.old.items high.new.items) }
    ensures bound { length high.new.items ≤ length high.old.items + 1 }
    ensures change { (more : List ℕ)
        → IfOk result (λ c. stored_change (high.new.items ++ more) c
        ≡ record { code = code; value = value }) }
{
    let low = (value % (1 << 64)) as u64;
    let above = (value / (1 << 64)) as u64;
    if above == 0 {
        return Ok(Change { code, high: 0, low });
    }
    high.push(above)?;
    Ok(Change {
        code,
        high: high.len() as u32,
        low,
    })
}

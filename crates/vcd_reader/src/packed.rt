//! The table of short codes.

ghost use Rattle.std.specs.Prelude.{◌≡◌, ℕ, ◌<◌, ◌≤◌, List, length, IfOk};
ghost use Rattle.vcd_reader.specs.Variables.{place_of};
ghost use Rattle.vcd_reader.specs.Index.{codes_in, IsIndex};
ghost use Rattle.vcd_reader.specs.Packed.{unpacked_code, AreKnown};

use crate::codes::{Codes, Entry};
use crate::places::{Part, Places, find_text};
use crate::variable::Variable;
use std::alloc::{AllocError, Global};

/// Entries of a page: two bytes below 128.
const PAGE: usize = 16_384;

/// Variables for each further page, so that the table grows with the header.
const SHARE: usize = 256;

const BLANK: Entry = Entry {
    packed: 0,
    number: 0,
};

/// The number of a code of one to four bytes, or 0.
#[tactic(auto, using(crate::proofs::PackedLaws::packs))]
fn packed_code(code: &[u8]) -> u32
    ensures { 0 < result → unpacked_code result ≡ code.now }
{
    match code {
        [a] => u32::from(*a),
        [a, b] if *b > 0 => u32::from(*a) + u32::from(*b) * 256,
        [a, b, c] if *c > 0 => u32::from(*a) + u32::from(*b) * 256 + u32::from(*c) * 65_536,
        [a, b, c, d] if *d > 0 => {
            u32::from(*a)
                + u32::from(*b) * 256
                + u32::from(*c) * 65_536
                + u32::from(*d) * 16_777_216
        }
        _ => 0,
    }
}

/// The page's place for a packed code.
fn page_place(packed: u32) -> usize {
    ((packed >> 16) & 127) as usize + ((packed >> 24) & 127) as usize * 128
}

/// The place of a packed code in the table, which may be after its end.
pub(crate) fn entry_place(pages: &[u32], packed: u32) -> usize {
    let low = (packed & 127) as usize + ((packed >> 8) & 127) as usize * 128;
    match pages.get(page_place(packed)) {
        None => low,
        Some(page) => *page as usize * PAGE + low,
    }
}

/// The number of a code.
pub(crate) fn find_code(codes: &Codes, code: &[u8]) -> Option<u32>
    ensures { result ≡ place_of (codes_in codes.now.variables.now) code.now }
{
    let packed = packed_code(code);
    if packed > 0 {
        let place = entry_place(&codes.pages, packed);
        if place < codes.table.len() {
            let entry = codes.table[place];
            if entry.packed == packed {
                return Some(entry.number);
            }
        }
    }
    find_text(codes.places, &[], codes.variables, Part::Code, code)
}

/// Makes a page for a packed code, where the header is large enough for one more.
fn add_page(
    pages: &mut Vec<u32>,
    table: &mut Vec<Entry>,
    packed: u32,
    most: usize,
) -> Result<(), AllocError>
    ensures { (texts : List (List ℕ)) → AreKnown texts table.old.items
        → AreKnown texts table.new.items }
{
    let place = page_place(packed);
    if place == 0 || place >= pages.len() || table.len() > most {
        return Ok(());
    }
    if pages[place] > 0 {
        return Ok(());
    }
    let Ok(page) = u32::try_from(table.len() / PAGE) else {
        return Ok(());
    };
    for _i in 0..PAGE {
        table.push(BLANK)?;
    }
    pages[place] = page;
    Ok(())
}

/// A table of zeros.
fn no_pages(alloc: Global) -> Result<Vec<u32>, AllocError> {
    vec![in alloc; 0; PAGE]
}

/// A table of one page.
fn blank_page(alloc: Global) -> Result<Vec<Entry>, AllocError>
    ensures { (texts : List (List ℕ)) → IfOk result (λ t. AreKnown texts t.items) }
{
    let mut table = Vec::new(alloc);
    for _i in 0..PAGE {
        table.push(BLANK)?;
    }
    Ok(table)
}

/// The short codes of a header in a table.
fn entries_of(
    alloc: Global,
    variables: &[Variable],
    places: &Places,
) -> Result<(Vec<u32>, Vec<Entry>), AllocError>
    requires { IsIndex (codes_in variables.now) places.now }
    ensures { IfOk result (λ r. AreKnown (codes_in variables.now) r.1.items) }
{
    let mut pages = no_pages(alloc)?;
    let mut table = blank_page(alloc)?;
    for i in 0..variables.len() {
        let packed = packed_code(&variables[i].code);
        if packed == 0 {
            continue;
        }
        add_page(
            &mut pages,
            &mut table,
            packed,
            variables.len() / SHARE * PAGE,
        )?;
        let place = entry_place(&pages, packed);
        if place >= table.len() {
            continue;
        }
        table[place] = Entry {
            packed,
            number: places.firsts[i],
        };
    }
    Ok((pages, table))
}

/// The header's codes with their table.
pub(crate) fn table_of<'a>(
    alloc: Global,
    variables: &'a [Variable],
    places: &'a Places,
) -> Result<Codes<'a>, AllocError>
    requires { IsIndex (codes_in variables.now) places.now }
    ensures { IfOk result (λ c. c.variables.now ≡ variables.now) }
{
    let (pages, table) = entries_of(alloc, variables, places)?;
    Ok(Codes {
        variables,
        places,
        pages,
        table,
    })
}

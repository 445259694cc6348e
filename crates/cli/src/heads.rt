//! What explanations take from a text beside its suite: where assertions stand, and what counters
//! are called.

ghost use Rattle.std.specs.Prelude.{◌≡◌, IfOk, length};
ghost use Rattle.parser_grammar.specs.Views.{items_of};
ghost use Rattle.cli.specs.Heads.{AreHeads, head_of};

use diagnostics::place_of;
use lexer::Token;
use parser::File;
use parser_grammar::{AssertionTree, ItemTree};
use report_explained::{Explanation, Standing};
use source_files::{Origin, spot_in};
use std::alloc::{AllocError, Global};

/// Of each assertion the byte at which it begins, and of each counter its name, in the order of the
/// text.
#[derive(Drop)]
pub(crate) struct Heads<'a> {
    pub places: Vec<usize>,
    pub counters: Vec<&'a str>,
}

/// The first byte of an assertion: that of its label, or of its verb.
fn place_of_head(assertion: &AssertionTree) -> usize
    ensures { result ≡ head_of assertion.now.label assertion.now.verb }
{
    match &assertion.label {
        None => assertion.verb.at,
        Some(label) => label.at,
    }
}

/// The heads of a file.
pub(crate) fn heads_of<'a>(alloc: Global, file: &File<'a>) -> Result<Heads<'a>, AllocError>
    ensures { IfOk result (AreHeads (items_of file.now)) }
{
    let mut places = Vec::new(alloc);
    let mut counters = Vec::new(alloc);
    for item in &file.items {
        match item {
            ItemTree::Assertion(assertion) => places.push(place_of_head(assertion))?,
            ItemTree::Counter(counter) => counters.push(counter.name.text)?,
            ItemTree::Declaration(_) => (),
        }
    }
    Ok(Heads { places, counters })
}

/// Where a byte of a text stands in the files that the text was made of.
fn standing_at<'p>(origin: &Origin<'p>, at: usize) -> Standing<'p> {
    let spot = spot_in(origin, at);
    match origin.parts.get(spot.part) {
        None => Standing {
            path: "",
            line: 1,
            column: 1,
        },
        Some(part) => {
            let place = place_of(part.text.as_str(), spot.at);
            Standing {
                path: part.path.as_str(),
                line: place.line as u64,
                column: place.column as u64,
            }
        }
    }
}

/// Where the assertions of explained attempts stand.
pub(crate) fn standings_of<'p>(
    alloc: Global,
    heads: &Heads<'_>,
    origin: &Origin<'p>,
    explanations: &[Explanation],
) -> Result<Vec<Standing<'p>>, AllocError>
    ensures { IfOk result (λ standings. length standings.items ≡ length explanations.now) }
{
    let mut standings = Vec::with_capacity(alloc, explanations.len())?;
    for explanation in explanations {
        let at = heads.places.get(explanation.place).copied().unwrap_or(0);
        standings.push(standing_at(origin, at))?;
    }
    Ok(standings)
}

//! Where statements end (IEEE 1800-2017, annex A.6.4), and the action blocks of assertions.

ghost use Rattle.std.specs.Prelude.{◌≤◌, length};

use crate::brackets::Brackets;
use crate::passing::{
    after_name, assertion_brackets, begins_item, deeper, ends_scope, is_begun_at, is_keyword,
    is_symbol, is_word, kind_at, past_class, past_word,
};
use import_tokens::{Keyword, Kind, Symbol, Token};

/// How a word nests statements: begins a block, ends one, or neither.
#[derive(Clone, Copy)]
enum Nesting {
    Begins,
    Ends,
    Neither,
}

/// Whether `fork` stands there as the end of `wait fork` or `disable fork` (9.6.1, 9.6.3).
fn ends_fork(tokens: &[Token], index: usize) -> bool {
    let before = index.saturating_sub(1);
    match tokens.get(before) {
        Some(token) if before < index && is_keyword(tokens, index, Keyword::Fork) => {
            token.text == b"wait".as_slice() || token.text == b"disable".as_slice()
        }
        _ => false,
    }
}

/// How the token at a place nests statements.
fn nesting_at(tokens: &[Token], index: usize) -> Nesting {
    if ends_fork(tokens, index) {
        return Nesting::Neither;
    }
    if is_word(tokens, index, b"randcase") {
        return Nesting::Begins;
    }
    nesting_of(kind_at(tokens, index))
}

fn nesting_of(kind: Kind) -> Nesting {
    match kind {
        Kind::Keyword(
            Keyword::Begin | Keyword::Fork | Keyword::Case | Keyword::CaseX | Keyword::CaseZ,
        ) => Nesting::Begins,
        Kind::Keyword(
            Keyword::End | Keyword::Join | Keyword::JoinAny | Keyword::JoinNone | Keyword::EndCase,
        ) => Nesting::Ends,
        _ => Nesting::Neither,
    }
}

/// Where a statement ends.
#[derive(Clone, Copy)]
enum Ending {
    /// The place after it.
    Whole(usize),
    /// It has no end of its own before this place, at which another item begins, or a block ends.
    Cut(usize),
}

/// The place at which what follows a statement begins.
fn place_of(ending: Ending) -> usize {
    match ending {
        Ending::Whole(end) => end,
        Ending::Cut(next) => next,
    }
}

/// Where a block ends that begins there, with its name.
fn block_end(tokens: &[Token], start: usize) -> Ending {
    let mut depth = 0u64;
    for index in start..tokens.len() {
        if ends_scope(tokens[index].kind) {
            return Ending::Cut(index);
        }
        match nesting_at(tokens, index) {
            Nesting::Begins => depth = depth.saturating_add(1),
            Nesting::Ends => depth = depth.saturating_sub(1),
            Nesting::Neither => {}
        }
        if depth == 0 {
            return Ending::Whole(after_name(tokens, index + 1));
        }
    }
    Ending::Cut(tokens.len())
}

/// Whether another item begins there, so that no statement goes on which begins before it. The word
/// of an assertion, also a misspelt one, has `property` after it.
fn cuts_statement(tokens: &[Token], start: usize, index: usize) -> bool {
    let is_second = index == start.saturating_add(1) && is_begun_at(tokens, start);
    index > start && !is_second && begins_item(tokens, index)
}

/// Where a statement ends that has a semicolon, or whose last part is a block.
fn simple_end(tokens: &[Token], start: usize) -> Ending {
    let mut depth = 0u64;
    for index in start..tokens.len() {
        let kind = tokens[index].kind;
        let ends = ends_scope(kind) || cuts_statement(tokens, start, index);
        let nesting = nesting_at(tokens, index);
        if ends || matches!(nesting, Nesting::Ends) {
            return Ending::Cut(index);
        }
        if depth == 0 && matches!(nesting, Nesting::Begins) {
            return block_end(tokens, index);
        }
        depth = deeper(depth, kind);
        if depth == 0 && kind == Kind::Symbol(Symbol::Semicolon) {
            return Ending::Whole(index + 1);
        }
    }
    Ending::Cut(tokens.len())
}

/// Whether a statement goes on with what stands after a macro, which may be a part of it alone.
fn goes_on(kind: Kind) -> bool {
    match kind {
        Kind::Symbol(symbol) => symbol != Symbol::Semicolon,
        Kind::Number | Kind::Real | Kind::Quoted | Kind::Stray => true,
        _ => false,
    }
}

/// Where a statement ends at whose front the use of a macro stands that stays as it is. What the
/// macro makes may be all of it, with its semicolon.
fn macro_end(tokens: &[Token], start: usize) -> Ending {
    let open = start.saturating_add(1);
    let after = if is_symbol(tokens, open, Symbol::OpenRound) {
        match assertion_brackets(tokens, open) {
            Brackets::Closed(end) => end,
            Brackets::Open(next) => return Ending::Cut(next),
        }
    } else {
        open
    };
    let next = kind_at(tokens, after);
    if goes_on(next) {
        return simple_end(tokens, start);
    }
    if next == Kind::Symbol(Symbol::Semicolon) {
        return Ending::Whole(after.saturating_add(1));
    }
    Ending::Whole(after)
}

/// The word that ends what a keyword begins, if that is a declaration of several parts.
fn last_word(keyword: Keyword) -> Option<Keyword> {
    match keyword {
        Keyword::Property => Some(Keyword::EndProperty),
        Keyword::Sequence => Some(Keyword::EndSequence),
        Keyword::Function => Some(Keyword::EndFunction),
        Keyword::Task => Some(Keyword::EndTask),
        Keyword::CoverGroup => Some(Keyword::EndGroup),
        Keyword::Specify => Some(Keyword::EndSpecify),
        Keyword::Clocking => Some(Keyword::EndClocking),
        _ => None,
    }
}

/// Where a statement ends before which nothing stands that others have there, too.
fn bare_end(tokens: &[Token], start: usize) -> Ending {
    match kind_at(tokens, start) {
        Kind::Macro(_) => macro_end(tokens, start),
        Kind::Word if is_word(tokens, start, b"randsequence") => {
            Ending::Whole(past_word(tokens, start, Keyword::EndSequence))
        }
        Kind::Keyword(Keyword::Class) => Ending::Whole(past_class(tokens, start)),
        Kind::Keyword(keyword) => match last_word(keyword) {
            Some(last) => Ending::Whole(past_word(tokens, start, last)),
            None => simple_end(tokens, start),
        },
        _ => simple_end(tokens, start),
    }
}

/// What stands before a statement: up to where, and whether an `else` may follow the statement.
#[derive(Clone, Copy)]
struct Head {
    end: usize,
    takes_else: bool,
}

/// A head that goes up to the end of the brackets at a place; none where they don't close.
fn bracketed(tokens: &[Token], open: usize, takes_else: bool) -> Option<Head> {
    if !is_symbol(tokens, open, Symbol::OpenRound) {
        return None;
    }
    match assertion_brackets(tokens, open) {
        Brackets::Closed(end) => Some(Head { end, takes_else }),
        Brackets::Open(_) => None,
    }
}

/// A head of some tokens.
fn head_of(start: usize, count: usize) -> Option<Head> {
    Some(Head {
        end: start.saturating_add(count),
        takes_else: false,
    })
}

/// How many tokens stand between the word of an assertion and its brackets: `assert (..)`,
/// `assert property (..)`, `assert final (..)`, `assert #0 (..)`.
fn words_between(kind: Kind) -> usize {
    match kind {
        Kind::Symbol(Symbol::Hash) => 2,
        Kind::Keyword(Keyword::Property | Keyword::Sequence | Keyword::Final) => 1,
        _ => 0,
    }
}

/// The head that an assertion is of its action block. One of nothing has no `else` (16.14.1), nor
/// has that of a cover.
fn assertion_head(tokens: &[Token], start: usize) -> Option<Head> {
    let next = start.saturating_add(1);
    let open = next.saturating_add(words_between(kind_at(tokens, next)));
    let head = bracketed(tokens, open, true)?;
    let is_null = is_symbol(tokens, head.end, Symbol::Semicolon);
    Some(Head {
        end: head.end,
        takes_else: !is_null && !is_keyword(tokens, start, Keyword::Cover),
    })
}

/// The head that an event or a delay is (9.4): in brackets, or of one token.
fn timing_head(tokens: &[Token], start: usize) -> Option<Head> {
    let open = start.saturating_add(1);
    if is_symbol(tokens, open, Symbol::OpenRound) {
        return bracketed(tokens, open, false);
    }
    head_of(start, 2)
}

/// The head that begins with a keyword.
fn keyword_head(tokens: &[Token], start: usize, keyword: Keyword) -> Option<Head> {
    let open = start.saturating_add(1);
    match keyword {
        Keyword::If => bracketed(tokens, open, true),
        Keyword::For | Keyword::ForEach | Keyword::While | Keyword::Repeat | Keyword::Wait => {
            bracketed(tokens, open, false)
        }
        Keyword::Assert | Keyword::Assume | Keyword::Cover => assertion_head(tokens, start),
        Keyword::Forever
        | Keyword::Unique
        | Keyword::Unique0
        | Keyword::Priority
        | Keyword::Always
        | Keyword::AlwaysCombinational
        | Keyword::AlwaysFlipFlop
        | Keyword::AlwaysLatch
        | Keyword::Initial
        | Keyword::Final => head_of(start, 1),
        _ => None,
    }
}

/// What stands at a place before a statement, if something does: a condition, a loop, a delay, an
/// event, a label, an assertion before its action block, or the word of a procedure.
fn head_at(tokens: &[Token], start: usize) -> Option<Head> {
    match kind_at(tokens, start) {
        Kind::Keyword(keyword) => keyword_head(tokens, start, keyword),
        Kind::Symbol(Symbol::AtSign | Symbol::Hash | Symbol::Delay) => timing_head(tokens, start),
        Kind::Word | Kind::Escaped if is_symbol(tokens, start.saturating_add(1), Symbol::Colon) => {
            head_of(start, 2)
        }
        _ => None,
    }
}

/// Where the walk over a statement stands, and how many conditions are open whose `else` may
/// still follow.
#[derive(Clone, Copy)]
struct Walk {
    at: usize,
    open: u64,
}

/// The same after all that stands before a statement.
fn past_heads(tokens: &[Token], start: Walk) -> Walk {
    let mut walk = start;
    for _ in start.at..tokens.len() {
        let Some(head) = head_at(tokens, walk.at) else {
            break;
        };
        walk.at = head.end;
        if head.takes_else {
            walk.open = walk.open.saturating_add(1);
        }
    }
    walk
}

/// The same after an `else` that stands there and is that of an open condition.
fn past_else(tokens: &[Token], walk: Walk) -> Option<Walk> {
    if walk.open == 0 || !is_keyword(tokens, walk.at, Keyword::Else) {
        return None;
    }
    Some(Walk {
        at: walk.at.saturating_add(1),
        open: walk.open.saturating_sub(1),
    })
}

/// Where a statement ends, with each `else` that belongs to it (12.4). So many conditions stand
/// before it.
fn statement_end(tokens: &[Token], start: Walk) -> Ending {
    let mut walk = start;
    for _ in start.at..tokens.len() {
        walk = past_heads(tokens, walk);
        if !is_keyword(tokens, walk.at, Keyword::Else) {
            match bare_end(tokens, walk.at) {
                Ending::Whole(end) => walk.at = end,
                Ending::Cut(next) => return Ending::Cut(next),
            }
        }
        match past_else(tokens, walk) {
            Some(next) => walk = next,
            None => return Ending::Whole(walk.at),
        }
    }
    Ending::Cut(walk.at)
}

/// The place after a statement, with its `else` and the name of its block, or at what begins
/// another item before its end. The use of a macro that stays as it is may be a statement.
pub fn past_statement(tokens: &[Token], start: usize) -> usize
    ensures { result ≤ length tokens.now }
{
    let alone = is_keyword(tokens, start, Keyword::Else);
    let at = if alone {
        start.saturating_add(1)
    } else {
        start
    };
    place_of(statement_end(tokens, Walk { at, open: 0 })).min(tokens.len())
}

/// The place after an assertion that is not read, or at the item that begins before its brackets
/// close.
pub(crate) fn past_left_out(tokens: &[Token], word: usize) -> usize {
    for open in word..word.saturating_add(4) {
        if is_symbol(tokens, open, Symbol::OpenRound) {
            return match assertion_brackets(tokens, open) {
                Brackets::Closed(_) => past_statement(tokens, word),
                Brackets::Open(next) => next,
            };
        }
    }
    past_statement(tokens, word)
}

/// Whether a sign that can begin no statement stands there (annex A.6.4).
fn begins_no_statement(kind: Kind) -> bool {
    match kind {
        Kind::Symbol(symbol) => !matches!(
            symbol,
            Symbol::Semicolon
                | Symbol::OpenBrace
                | Symbol::OpenPattern
                | Symbol::Increment
                | Symbol::Decrement
                | Symbol::Arrow
                | Symbol::AtSign
                | Symbol::Hash
                | Symbol::Delay
        ),
        _ => false,
    }
}

/// The place after the action block of an assertion (16.14.1); none where its semicolon is missing.
pub(crate) fn past_action(tokens: &[Token], start: usize) -> Option<usize> {
    if is_symbol(tokens, start, Symbol::Semicolon) {
        return Some(start.saturating_add(1));
    }
    if begins_item(tokens, start) || begins_no_statement(kind_at(tokens, start)) {
        return None;
    }
    match statement_end(tokens, Walk { at: start, open: 1 }) {
        Ending::Whole(end) => Some(end),
        Ending::Cut(_) => None,
    }
}

//! What a token is to the grammar.

ghost use Rattle.std.specs.Prelude.{◌≡◌, map, if◌then◌else◌};
ghost use Rattle.std.specs.List.{fold, list_any};
ghost use Rattle.std.specs.Option.{unwrap_or};
ghost use Rattle.std.specs.Str.{bytes_eq};
ghost use Rattle.parser_grammar.specs.declared.terminal.Terminal.{Terminal};
ghost use Rattle.parser_grammar.specs.Terminals.{is_foreign, foreign_word};
ghost use Rattle.parser_grammar.specs.Terminals.{word_terminal, system_terminal};
ghost use Rattle.parser_grammar.specs.Terminals.{symbol_terminal, terminal, is, is_name, is_word};
ghost use Rattle.parser_grammar.specs.Terminals.{is_first_match_word};

use lexer::{Kind, Symbol, Token};

/// A word, symbol or class of tokens that the grammar's rules name.
#[derive(Clone, Copy, PartialEq, Eq)]
pub enum Terminal {
    Counter,
    Clear,
    Load,
    Add,
    Sub,
    Sequence,
    EndSequence,
    Assert,
    Assume,
    Property,
    Posedge,
    Disable,
    Iff,
    Or,
    And,
    Throughout,
    Intersect,
    /// A word that stands for something of the language which the profile leaves out.
    ForeignWord,
    /// Any other word.
    Name,
    Past,
    Rose,
    Fell,
    Stable,
    Changed,
    OneHot,
    OneHot0,
    /// `$` alone, and every other system name.
    ForeignSystem,
    Number,
    OpenRound,
    CloseRound,
    OpenBrace,
    CloseBrace,
    OpenSquare,
    OpenRepeat,
    CloseSquare,
    Comma,
    Semicolon,
    Colon,
    AtSign,
    Dot,
    Delay,
    Overlapped,
    Following,
    /// `*`, `/` and `%`, which the profile leaves out.
    ForeignSymbol,
    /// Any other symbol.
    Operator,
    End,
}

/// Words of constructs that the profile leaves out, `first_match` but round an antecedent.
const FOREIGN_WORDS: [&str; 28] = [
    "within",
    "first_match",
    "strong",
    "weak",
    "not",
    "if",
    "else",
    "case",
    "always",
    "nexttime",
    "eventually",
    "until",
    "s_always",
    "s_nexttime",
    "s_eventually",
    "s_until",
    "s_until_with",
    "until_with",
    "implies",
    "accept_on",
    "reject_on",
    "cover",
    "restrict",
    "default",
    "clocking",
    "negedge",
    "edge",
    "local",
];

/// The words that the rules quote.
const WORDS: [(&str, Terminal); 17] = [
    ("counter", Terminal::Counter),
    ("clear", Terminal::Clear),
    ("load", Terminal::Load),
    ("add", Terminal::Add),
    ("sub", Terminal::Sub),
    ("sequence", Terminal::Sequence),
    ("endsequence", Terminal::EndSequence),
    ("assert", Terminal::Assert),
    ("assume", Terminal::Assume),
    ("property", Terminal::Property),
    ("posedge", Terminal::Posedge),
    ("disable", Terminal::Disable),
    ("iff", Terminal::Iff),
    ("or", Terminal::Or),
    ("and", Terminal::And),
    ("throughout", Terminal::Throughout),
    ("intersect", Terminal::Intersect),
];

/// The system names that the rules quote.
const SYSTEM_NAMES: [(&str, Terminal); 7] = [
    ("$past", Terminal::Past),
    ("$rose", Terminal::Rose),
    ("$fell", Terminal::Fell),
    ("$stable", Terminal::Stable),
    ("$changed", Terminal::Changed),
    ("$onehot", Terminal::OneHot),
    ("$onehot0", Terminal::OneHot0),
];

/// The terminal beside the text, in the first row that has it.
fn terminal_beside(text: &str, rows: &[(&str, Terminal)]) -> Option<Terminal>
    ensures { (other : Terminal) → unwrap_or result other
        ≡ fold (λ (go : Terminal → Terminal) row rest.
        go (if bytes_eq text.now row.0.now then row.1 else rest)) (λ w. w) rows.now other }
{
    for (word, terminal) in rows {
        if text == *word {
            return Some(*terminal);
        }
    }
    None
}

fn is_one_of(text: &str, words: &[&str]) -> bool
    ensures { result ≡ list_any (bytes_eq text.now) (map (λ word. word.now) words.now) }
{
    for word in words {
        if text == *word {
            return true;
        }
    }
    false
}

#[tactic(auto, unfolding(crate::specs::Terminals::foreign_words))]
fn is_foreign(text: &str) -> bool
    ensures { result ≡ is_foreign text.now }
{
    is_one_of(text, &FOREIGN_WORDS)
}

fn foreign_word(text: &str) -> Terminal
    ensures { result ≡ foreign_word text.now }
{
    if is_foreign(text) {
        Terminal::ForeignWord
    } else {
        Terminal::Name
    }
}

/// The terminal of a word.
fn word_terminal(text: &str) -> Terminal
    ensures { result ≡ word_terminal text.now }
{
    match terminal_beside(text, &WORDS) {
        Some(terminal) => terminal,
        None => foreign_word(text),
    }
}

/// The terminal of a system name.
fn system_terminal(text: &str) -> Terminal
    ensures { result ≡ system_terminal text.now }
{
    match terminal_beside(text, &SYSTEM_NAMES) {
        Some(terminal) => terminal,
        None => Terminal::ForeignSystem,
    }
}

fn symbol_terminal(symbol: Symbol) -> Terminal
    ensures { result ≡ symbol_terminal symbol }
{
    match symbol {
        Symbol::OpenRound => Terminal::OpenRound,
        Symbol::CloseRound => Terminal::CloseRound,
        Symbol::OpenBrace => Terminal::OpenBrace,
        Symbol::CloseBrace => Terminal::CloseBrace,
        Symbol::OpenSquare => Terminal::OpenSquare,
        Symbol::OpenRepeat => Terminal::OpenRepeat,
        Symbol::CloseSquare => Terminal::CloseSquare,
        Symbol::Comma => Terminal::Comma,
        Symbol::Semicolon => Terminal::Semicolon,
        Symbol::Colon => Terminal::Colon,
        Symbol::AtSign => Terminal::AtSign,
        Symbol::Dot => Terminal::Dot,
        Symbol::Delay => Terminal::Delay,
        Symbol::Overlapped => Terminal::Overlapped,
        Symbol::Following => Terminal::Following,
        Symbol::Star | Symbol::Slash | Symbol::Percent => Terminal::ForeignSymbol,
        _ => Terminal::Operator,
    }
}

/// What the token is to the grammar.
pub fn terminal_of(token: Token) -> Terminal
    ensures { result ≡ terminal token.entry }
{
    match token.kind {
        Kind::Word => word_terminal(token.text),
        Kind::System => system_terminal(token.text),
        Kind::Number(_) => Terminal::Number,
        Kind::Symbol(symbol) => symbol_terminal(symbol),
        Kind::End => Terminal::End,
    }
}

/// Whether the token is the terminal.
pub fn is(wanted: Terminal, token: Token) -> bool
    ensures { result ≡ is wanted token.entry }
{
    wanted == terminal_of(token)
}

/// Whether the token is the word `first_match`, as round an antecedent.
#[tactic(auto, unfolding(crate::specs::Terminals::is_first_match_word))]
pub fn is_first_match_word(token: Token) -> bool
    ensures { result ≡ is_first_match_word token.entry }
{
    is(Terminal::ForeignWord, token) && token.text == "first_match"
}

/// Whether the token may be a NAME.
#[tactic(auto, unfolding(crate::specs::Terminals::is_name))]
pub fn is_name(token: Token) -> bool
    ensures { result ≡ is_name token.entry }
{
    matches!(
        terminal_of(token),
        Terminal::Counter
            | Terminal::Clear
            | Terminal::Load
            | Terminal::Add
            | Terminal::Sub
            | Terminal::Name
    )
}

/// Whether the token is a word, as after a dot.
#[tactic(auto, unfolding(crate::specs::Terminals::is_word))]
pub fn is_word(token: Token) -> bool
    ensures { result ≡ is_word token.entry }
{
    matches!(token.kind, Kind::Word)
}

//! Whether what is refused changes what is left of a text.

/// Why what is left of a text isn't judged: something that is refused changes what it says.
#[derive(Clone, Copy, PartialEq)]
pub enum Unjudged {
    /// A conditional directive, which chooses among assertions.
    Conditional,
    /// `default disable iff`, where an assertion has no `disable iff` of its own.
    Disabling,
    /// A declaration, as of a sequence, of which what is left has the name.
    Name,
}

impl Unjudged {
    /// What is told of it, with what may be done.
    pub fn text(self) -> &'static str {
        match self {
            Unjudged::Conditional => {
                "nothing is judged: a conditional directive is refused, which chooses among \
                 assertions; leave it out, or read the file by --sv"
            }
            Unjudged::Disabling => {
                "nothing is judged: default disable iff is refused; write disable iff in each \
                 assertion, or read the file by --sv"
            }
            Unjudged::Name => {
                "nothing is judged: the name of a refused declaration is left in the text, and \
                 would mean something else"
            }
        }
    }
}

/// A word of a text, and the byte at which it begins.
#[derive(Clone, Copy)]
struct Word<'t> {
    at: usize,
    text: &'t str,
}

fn is_word_byte(byte: u8) -> bool {
    byte.is_ascii_alphanumeric() || byte == b'_' || byte == b'$' || byte == b'`'
}

/// The byte from one on at which a word begins.
fn word_start(text: &str, from: usize) -> Option<usize> {
    for (at, byte) in text.as_bytes().iter().enumerate().skip(from) {
        if is_word_byte(*byte) {
            return Some(at);
        }
    }
    None
}

/// The byte after the word that begins at one.
fn word_end(text: &str, start: usize) -> usize {
    for (at, byte) in text.as_bytes().iter().enumerate().skip(start) {
        if !is_word_byte(*byte) {
            return at;
        }
    }
    text.len()
}

/// The first word from a byte on.
fn word_from(text: &str, from: usize) -> Option<Word<'_>> {
    let at = word_start(text, from)?;
    let text = text.get(at..word_end(text, at))?;
    Some(Word { at, text })
}

/// The byte after a word.
fn end_of(word: Word<'_>) -> usize {
    word.at.saturating_add(word.text.len())
}

/// Whether a word is a part of a path with dots.
fn is_in_path(text: &str, word: Word<'_>) -> bool {
    let bytes = text.as_bytes();
    let before = word.at.checked_sub(1);
    let dotted = before.is_some_and(|at| bytes.get(at) == Some(&b'.'));
    dotted || bytes.get(end_of(word)) == Some(&b'.')
}

/// Whether a text has a name that is no part of a path with dots.
fn has_name(text: &str, name: &str) -> bool {
    let mut from = 0;
    for _round in 0..text.len() {
        let Some(word) = word_from(text, from) else {
            return false;
        };
        if word.text == name && !is_in_path(text, word) {
            return true;
        }
        from = end_of(word);
    }
    false
}

/// Whether a text is one of some words.
fn is_one(words: &[&str], text: &str) -> bool {
    for word in words {
        if *word == text {
            return true;
        }
    }
    false
}

/// How many words of a text are one of these.
fn count_of(text: &str, words: &[&str]) -> usize {
    let mut from = 0;
    let mut count = 0usize;
    for _round in 0..text.len() {
        let Some(word) = word_from(text, from) else {
            return count;
        };
        if is_one(words, word.text) {
            count = count.saturating_add(1);
        }
        from = end_of(word);
    }
    count
}

/// The words before a name that is declared.
const DECLARERS: [&str; 14] = [
    "sequence",
    "counter",
    "property",
    "let",
    "localparam",
    "parameter",
    "genvar",
    "wire",
    "logic",
    "reg",
    "bit",
    "int",
    "integer",
    "byte",
];

/// The words of conditional directives.
const CONDITIONALS: [&str; 5] = ["`ifdef", "`ifndef", "`elsif", "`else", "`endif"];

/// Whether one word stands right after another, white space between.
fn follows(text: &str, first: Word<'_>, second: Word<'_>) -> bool {
    let between = text.get(end_of(first)..second.at).unwrap_or("-");
    between.trim().is_empty()
}

/// What a word that is blanked in what is left changes there, by the word before it.
fn changed_by(whole: &str, left: &str, before: Word<'_>, word: Word<'_>) -> Option<Unjudged> {
    if is_one(&CONDITIONALS, word.text) {
        return Some(Unjudged::Conditional);
    }
    if !follows(whole, before, word) {
        return None;
    }
    match before.text {
        "default" if word.text == "disable" => {
            let judged = count_of(left, &["assert", "assume"]);
            (judged > count_of(left, &["disable"])).then_some(Unjudged::Disabling)
        }
        declarer if is_one(&DECLARERS, declarer) => {
            has_name(left, word.text).then_some(Unjudged::Name)
        }
        _ => None,
    }
}

/// Why what is left of a text, which has blanks in place of what is refused, isn't judged; none
/// where it may be.
pub fn why_not_judged(whole: &str, left: &str) -> Option<Unjudged> {
    let mut before = Word { at: 0, text: "" };
    for _round in 0..whole.len() {
        let word = word_from(whole, end_of(before))?;
        if left.as_bytes().get(word.at) == Some(&b' ') {
            if let Some(why) = changed_by(whole, left, before, word) {
                return Some(why);
            }
        }
        before = word;
    }
    None
}

//! The lines that name faults, and what helps whoever reads one.

use crate::fault::Fault;
use crate::words::{
    Words, byte_words, compile_words, lex_words, port_words, refusal_words, report_words,
    type_words, vcd_words,
};
use cli_words::WordsFault;
use cycle_window::WindowFault;
use parser::ParseFault;
use std::alloc::{AllocError, Global};

/// Adds a character of a path: what would end or move the line is escaped, as `\n`.
fn push_escaped(line: &mut String, character: char) -> Result<(), AllocError> {
    if !character.is_control() {
        return line.push(character);
    }
    for escaped in character.escape_default() {
        line.push(escaped)?;
    }
    Ok(())
}

/// The line that names a fault of a file or of a name, with its path in one line.
fn path_line(alloc: Global, what: &str, path: &str) -> Result<String, AllocError> {
    let mut line = String::from_str(alloc, what)?;
    for character in path.chars() {
        push_escaped(&mut line, character)?;
    }
    Ok(line)
}

/// The line of a fault: its name, and behind it its word and its number.
fn words_line(alloc: Global, words: Words) -> Result<String, AllocError> {
    let name = words.name;
    match (words.which, words.number) {
        (None, None) => format!(in alloc; "svamon: {name}"),
        (None, Some(number)) => format!(in alloc; "svamon: {name} {number}"),
        (Some(which), None) => format!(in alloc; "svamon: {name} {which}"),
        (Some(which), Some(number)) => format!(in alloc; "svamon: {name} {which} {number}"),
    }
}

/// The line of a fault of a text's grammar; a P2 has the word that the profile leaves out.
fn parse_line(alloc: Global, fault: &ParseFault) -> Result<String, AllocError> {
    match fault {
        ParseFault::Expected(_, at) => format!(in alloc; "svamon: P1 Expected {at}"),
        ParseFault::OutsideProfile(word, at) => {
            format!(in alloc; "svamon: P2 OutsideProfile {word} {at}")
        }
        ParseFault::TooDeep(at) => format!(in alloc; "svamon: P3 TooDeep {at}"),
        ParseFault::BadBound(at) => format!(in alloc; "svamon: P4 BadBound {at}"),
        ParseFault::Memory => String::from_str(alloc, "svamon: OutOfMemory"),
    }
}

/// The line of a fault of a window.
fn window_line(alloc: Global, fault: &WindowFault) -> Result<String, AllocError> {
    match fault {
        WindowFault::NoClock => String::from_str(alloc, "svamon: C1 NoClock"),
        WindowFault::ClockWidth => String::from_str(alloc, "svamon: C2 ClockWidth"),
        WindowFault::BadSize => String::from_str(alloc, "svamon: C3 BadSize"),
        WindowFault::NoSignal(path) => path_line(alloc, "svamon: C4 NoSignal ", path.as_str()),
        WindowFault::SignalWidth(path) => {
            path_line(alloc, "svamon: C5 SignalWidth ", path.as_str())
        }
        WindowFault::Memory => String::from_str(alloc, "svamon: OutOfMemory"),
    }
}

/// The line that names a fault, without its line feed; for words it is the text that explains them.
/// In a path or a name, control characters are escaped, so that it is one line.
pub fn fault_line(alloc: Global, fault: &Fault) -> Result<String, AllocError> {
    match fault {
        Fault::Vcd(fault) => words_line(alloc, vcd_words(*fault)),
        Fault::Lex(fault) => words_line(alloc, lex_words(*fault)),
        Fault::Parse(fault) => parse_line(alloc, fault),
        Fault::Typing(fault) => words_line(alloc, type_words(*fault)),
        Fault::Compile(fault) => words_line(alloc, compile_words(*fault)),
        Fault::BadSize => String::from_str(alloc, "svamon: C3 BadSize"),
        Fault::BadWorkers => String::from_str(alloc, "svamon: U1 BadWorkers"),
        Fault::BadJob => String::from_str(alloc, "svamon: U3 BadJob"),
        Fault::Window(fault) => window_line(alloc, fault),
        Fault::Port(fault) => words_line(alloc, port_words(*fault)),
        Fault::Report(fault) => words_line(alloc, report_words(*fault)),
        Fault::Code(fault) => words_line(alloc, byte_words(*fault)),
        Fault::Refused(refusal) => words_line(alloc, refusal_words(*refusal)),
        Fault::NoAssertion(name) => path_line(alloc, "svamon: N1 NoAssertion ", name.as_str()),
        Fault::NotText(path) => path_line(alloc, "svamon: N2 NotText ", path.as_str()),
        Fault::Words(WordsFault::Words(text)) => {
            let text = format!(in alloc; "{text}")?;
            String::from_str(alloc, text.trim_end())
        }
        Fault::Words(WordsFault::OutOfMemory) => String::from_str(alloc, "svamon: OutOfMemory"),
        Fault::File(file) => path_line(alloc, "svamon: file ", file.path.as_str()),
        Fault::Memory => String::from_str(alloc, "svamon: OutOfMemory"),
    }
}

/// What stands in a text that tells that no text of assertions was given.
const NO_TEXT: &str = "\n  --sva <FILE>\n";

/// What may be given in its place.
const INSTEAD: &str =
    "\nIn place of --sva there may be --axi; check, explain and lint take --sv, too.";

/// What helps whoever reads the line of a fault at a terminal, as a line without its line feed; or
/// nothing. Of a file it says why it can't be used.
pub fn fault_help(alloc: Global, fault: &Fault) -> Result<String, AllocError> {
    match fault {
        Fault::File(file) if !file.why.is_empty() => {
            let why = file.why;
            format!(in alloc; "  {why}")
        }
        Fault::Words(WordsFault::Words(text)) => {
            let text = format!(in alloc; "{text}")?;
            let help = if text.contains(NO_TEXT) { INSTEAD } else { "" };
            String::from_str(alloc, help)
        }
        _ => Ok(String::new(alloc)),
    }
}

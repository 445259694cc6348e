//! A report on standard output, and before it in files in other forms, with its page.

use crate::files::write_bytes;
use crate::shown::{Escape, ShownText};
use cli_faults::{Fault, written};
use report_forms::{Provenance, Refused, json_report, junit_report};
use report_lines::Report;
use signals::Counted;
use std::alloc::{AllocError, Global};
use std::fmt::Write;
use std::fs::Files;
use std::io;
use std::io::Print;

/// The bytes of a file as it is written: hidden characters are their numbers, and bytes that are no
/// text are `?`.
fn file_of(alloc: Global, bytes: &[u8], escape: Escape) -> Result<Vec<u8>, AllocError> {
    let mut file = String::new(alloc);
    for chunk in bytes.utf8_chunks() {
        let text = chunk.valid();
        write!(file, "{}", ShownText { text, escape })?;
        if !chunk.invalid().is_empty() {
            file.push_str("?")?;
        }
    }
    Ok(file.into_bytes())
}

/// The paths of files into which a report is written in other forms, where there are any.
#[derive(Clone, Copy)]
pub struct FormFiles<'a> {
    /// That of JUnit's XML.
    pub junit: Option<&'a str>,
    /// That of JSON.
    pub json: Option<&'a str>,
    /// That of the page.
    pub html: Option<&'a str>,
}

impl FormFiles<'_> {
    /// Whether there is none.
    pub fn is_empty(&self) -> bool {
        self.junit.is_none() && self.json.is_none() && self.html.is_none()
    }

    /// The bytes of the XML, none where it isn't wanted.
    fn junit_bytes(
        &self,
        alloc: Global,
        from: &Provenance<'_>,
        refused: &[Refused<'_>],
        report: &Report,
    ) -> Result<Vec<u8>, AllocError> {
        match self.junit {
            None => Ok(Vec::new(alloc)),
            Some(_) => {
                let xml = junit_report(alloc, from, refused, report)?;
                file_of(alloc, xml.as_slice(), Escape::Reference)
            }
        }
    }

    /// The bytes of the JSON, none where it isn't wanted.
    fn json_bytes(
        &self,
        alloc: Global,
        from: &Provenance<'_>,
        refused: &[Refused<'_>],
        report: &Report,
    ) -> Result<Vec<u8>, AllocError> {
        match self.json {
            None => Ok(Vec::new(alloc)),
            Some(_) => {
                let json = json_report(alloc, from, refused, report)?;
                file_of(alloc, json.as_slice(), Escape::Json)
            }
        }
    }
}

/// Makes the file of a path, where there is one.
fn write_form<R: Files + AllocGlobal>(
    rt: &R,
    path: Option<&str>,
    bytes: &[u8],
) -> Result<(), Fault<'static>> {
    match path {
        None => Ok(()),
        Some(path) => write_bytes(rt, path, bytes),
    }
}

/// Makes a save file of GTKWave of these bytes. What may not be shown is as at a terminal.
pub fn write_save<R: Files + AllocGlobal>(
    rt: &R,
    path: &str,
    bytes: &[u8],
) -> Result<(), Fault<'static>> {
    let save = file_of(rt.alloc(), bytes, Escape::Braced)?;
    write_bytes(rt, path, save.as_slice())
}

/// Writes a report into files in other forms, with what is refused of its text, and its page: all
/// texts are made before one is written. Then it goes to standard output; answers its totals.
pub fn print_report<R: Files + Print + AllocGlobal>(
    rt: &R,
    files: &FormFiles<'_>,
    from: &Provenance<'_>,
    refused: &[Refused<'_>],
    report: &Report,
    page: &[u8],
) -> Result<[u64; 5], Fault<'static>> {
    let junit = files.junit_bytes(rt.alloc(), from, refused, report)?;
    let json = files.json_bytes(rt.alloc(), from, refused, report)?;
    let page = file_of(rt.alloc(), page, Escape::Reference)?;
    write_form(rt, files.html, page.as_slice())?;
    write_form(rt, files.junit, junit.as_slice())?;
    write_form(rt, files.json, json.as_slice())?;
    let mut out = Counted::new(io::writer(rt));
    written(rt.alloc(), report, &mut out)
}

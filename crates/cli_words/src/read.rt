//! From words to a request.

ghost use Rattle.std.specs.Prelude.{◌≡◌, IfOk, Some, codes, map, string_bytes};
ghost use Rattle.clap.specs.Words.{found_of, rows_of};
ghost use Rattle.cli_words.specs.Words.{Gives, GivesAll, GivesFlag, IsNumber, GivesNumber};
ghost use Rattle.cli_words.specs.Words.{GivesBound, HasTeamFiles, HasText, HasForms};
ghost use Rattle.cli_words.specs.Words.{IsRequest, IsNamed, IsAsked};

use crate::command::svamon_command;
use crate::fault::WordsFault;
use crate::request::Request;
use crate::team_files::TeamFiles;
use clap::ArgMatches;
use std::alloc::{AllocError, Global};

/// A dump, texts, and ports if there are any.
#[derive(Drop)]
struct Sources {
    vcd: String,
    sva: Vec<String>,
    axi: Option<String>,
}

/// What is judged: a dump, texts and ports, and a team's files.
#[derive(Drop)]
struct Inputs {
    sources: Sources,
    team: TeamFiles,
}

/// The files into which other forms of the report are written.
#[derive(Drop)]
struct Forms {
    junit: Option<String>,
    json: Option<String>,
    html: Option<String>,
}

/// The text of an option that may be left out.
fn option_of(alloc: Global, options: &ArgMatches, name: &str) -> Result<Option<String>, AllocError>
    ensures { IfOk result (Gives name.now (rows_of (found_of options.now))) }
{
    match options.get_str(name) {
        Some(text) => Ok(Some(String::from_str(alloc, text)?)),
        None => Ok(None),
    }
}

/// The text of an option that has to be there: `clap` refuses words that lack it.
fn text_of(alloc: Global, options: &ArgMatches, name: &str) -> Result<String, AllocError>
    ensures { IfOk result (λ t. Gives name.now (rows_of (found_of options.now)) (Some t)) }
{
    match option_of(alloc, options, name)? {
        Some(text) => Ok(text),
        None => Err(AllocError),
    }
}

/// Texts of one's own.
fn owned(alloc: Global, texts: &[&str]) -> Result<Vec<String>, AllocError>
    ensures { IfOk result (λ ts. map string_bytes ts.items ≡ map (λ t. t.now) texts.now) }
{
    let mut all = Vec::new(alloc);
    for text in texts {
        all.push(String::from_str(alloc, *text)?)?;
    }
    Ok(all)
}

/// The texts of an option that may be given again and again.
fn texts_of(alloc: Global, options: &ArgMatches, name: &str) -> Result<Vec<String>, AllocError>
    ensures { IfOk result (λ ts. GivesAll name.now (rows_of (found_of options.now)) ts.items) }
{
    match options.get_strs(name) {
        Some(texts) => Ok(owned(alloc, texts)?),
        None => Ok(Vec::new(alloc)),
    }
}

/// Whether an option without a value is given.
fn is_given(options: &ArgMatches, name: &str) -> bool
    ensures { GivesFlag name.now (rows_of (found_of options.now)) result }
{
    match options.get_str(name) {
        Some(text) => text == "true",
        None => false,
    }
}

/// The number of an option: `clap` refuses any that is no number or out of range.
fn number_of(options: &ArgMatches, name: &str, most: u64) -> Result<u64, AllocError>
    ensures { IfOk result (IsNumber name.now most (rows_of (found_of options.now))) }
{
    match options.get_one::<u64>(name) {
        Some(number) => {
            if 1 <= number && number <= most {
                return Ok(number);
            }
            Err(AllocError)
        }
        None => Err(AllocError),
    }
}

/// The number of an option that may be left out: `clap` refuses any that is no number.
fn given_number(options: &ArgMatches, name: &str) -> Result<Option<u64>, AllocError>
    ensures { IfOk result (GivesNumber name.now (rows_of (found_of options.now))) }
{
    match options.get_str(name) {
        None => Ok(None),
        Some(_) => match options.get_one::<u64>(name) {
            Some(number) => Ok(Some(number)),
            None => Err(AllocError),
        },
    }
}

/// The bound that is given, if any: `clap` refuses any that is out of range.
fn bound_of(options: &ArgMatches) -> Result<Option<u64>, AllocError>
    ensures { IfOk result (GivesBound (rows_of (found_of options.now))) }
{
    match given_number(options, "bound")? {
        None => Ok(None),
        Some(bound) => {
            if 1 <= bound && bound <= 127 {
                return Ok(Some(bound));
            }
            Err(AllocError)
        }
    }
}

/// The files of a team that an option or words alone name, and how they are read.
fn team_of(alloc: Global, options: &ArgMatches, name: &str) -> Result<TeamFiles, AllocError>
    ensures { IfOk result (HasTeamFiles name.now (rows_of (found_of options.now))) }
{
    let bound = bound_of(options)?;
    Ok(TeamFiles {
        files: texts_of(alloc, options, name)?,
        scope: option_of(alloc, options, "scope")?,
        bound,
        clock: option_of(alloc, options, "clock")?,
        define: texts_of(alloc, options, "define")?,
        split: is_given(options, "split"),
    })
}

fn sources_of(alloc: Global, options: &ArgMatches) -> Result<Sources, AllocError>
    ensures { IfOk result (λ s. HasText (rows_of (found_of options.now)) s.vcd s.sva.items s.axi) }
{
    Ok(Sources {
        vcd: text_of(alloc, options, "vcd")?,
        sva: texts_of(alloc, options, "sva")?,
        axi: option_of(alloc, options, "axi")?,
    })
}

fn inputs_of(alloc: Global, options: &ArgMatches) -> Result<Inputs, AllocError>
    ensures sources { IfOk result (λ i. HasText (rows_of (found_of options.now))
        i.sources.vcd i.sources.sva.items i.sources.axi) }
    ensures team { IfOk result (λ i.
        HasTeamFiles (codes "sv") (rows_of (found_of options.now)) i.team) }
{
    let sources = sources_of(alloc, options)?;
    let team = team_of(alloc, options, "sv")?;
    Ok(Inputs { sources, team })
}

fn forms_of(alloc: Global, options: &ArgMatches) -> Result<Forms, AllocError>
    ensures { IfOk result (λ f. HasForms (rows_of (found_of options.now)) f.junit f.json f.html) }
{
    Ok(Forms {
        junit: option_of(alloc, options, "junit")?,
        json: option_of(alloc, options, "json")?,
        html: option_of(alloc, options, "html")?,
    })
}

fn check_request(alloc: Global, options: &ArgMatches) -> Result<Request, AllocError>
    ensures { IfOk result (IsRequest (codes "check") (rows_of (found_of options.now))) }
{
    let workers = number_of(options, "workers", 64)?;
    let window = number_of(options, "window", 65536)?;
    let only = texts_of(alloc, options, "only")?;
    let forms = forms_of(alloc, options)?;
    let inputs = inputs_of(alloc, options)?;
    Ok(Request::Check {
        vcd: inputs.sources.vcd,
        sva: inputs.sources.sva,
        axi: inputs.sources.axi,
        team: inputs.team,
        only,
        keep_going: is_given(options, "keep-going"),
        workers,
        window,
        junit: forms.junit,
        json: forms.json,
        html: forms.html,
    })
}

fn build_request(alloc: Global, options: &ArgMatches) -> Result<Request, AllocError>
    ensures { IfOk result (IsRequest (codes "build") (rows_of (found_of options.now))) }
{
    let name = text_of(alloc, options, "name")?;
    let out = text_of(alloc, options, "out")?;
    let sources = sources_of(alloc, options)?;
    Ok(Request::Build {
        vcd: sources.vcd,
        sva: sources.sva,
        axi: sources.axi,
        name,
        out,
    })
}

fn verify_request(alloc: Global, options: &ArgMatches) -> Result<Request, AllocError>
    ensures { IfOk result (IsRequest (codes "verify") (rows_of (found_of options.now))) }
{
    Ok(Request::Verify {
        code: text_of(alloc, options, "code")?,
    })
}

fn run_request(alloc: Global, options: &ArgMatches) -> Result<Request, AllocError>
    ensures { IfOk result (IsRequest (codes "run") (rows_of (found_of options.now))) }
{
    let workers = number_of(options, "workers", 64)?;
    let window = number_of(options, "window", 65536)?;
    Ok(Request::Run {
        vcd: text_of(alloc, options, "vcd")?,
        code: text_of(alloc, options, "code")?,
        workers,
        window,
    })
}

fn judge_request(alloc: Global, options: &ArgMatches) -> Result<Request, AllocError>
    ensures { IfOk result (IsRequest (codes "judge") (rows_of (found_of options.now))) }
{
    let sources = sources_of(alloc, options)?;
    Ok(Request::Judge {
        vcd: sources.vcd,
        sva: sources.sva,
        axi: sources.axi,
    })
}

fn explain_request(alloc: Global, options: &ArgMatches) -> Result<Request, AllocError>
    ensures { IfOk result (IsRequest (codes "explain") (rows_of (found_of options.now))) }
{
    let start = given_number(options, "start")?;
    let most = number_of(options, "most", 65536)?;
    let gtkw = option_of(alloc, options, "gtkw")?;
    let only = texts_of(alloc, options, "only")?;
    let inputs = inputs_of(alloc, options)?;
    Ok(Request::Explain {
        vcd: inputs.sources.vcd,
        sva: inputs.sources.sva,
        axi: inputs.sources.axi,
        team: inputs.team,
        only,
        keep_going: is_given(options, "keep-going"),
        start,
        most,
        gtkw,
    })
}

fn lint_request(alloc: Global, options: &ArgMatches) -> Result<Request, AllocError>
    ensures { IfOk result (IsRequest (codes "lint") (rows_of (found_of options.now))) }
{
    let inputs = inputs_of(alloc, options)?;
    Ok(Request::Lint {
        vcd: inputs.sources.vcd,
        sva: inputs.sources.sva,
        axi: inputs.sources.axi,
        team: inputs.team,
    })
}

fn names_request(alloc: Global, options: &ArgMatches) -> Result<Request, AllocError>
    ensures { IfOk result (IsRequest (codes "names") (rows_of (found_of options.now))) }
{
    Ok(Request::Names {
        vcd: text_of(alloc, options, "vcd")?,
        matching: option_of(alloc, options, "match")?,
        scope: option_of(alloc, options, "scope")?,
    })
}

fn import_request(alloc: Global, options: &ArgMatches) -> Result<Request, AllocError>
    ensures { IfOk result (IsRequest (codes "import") (rows_of (found_of options.now))) }
{
    let vcd = option_of(alloc, options, "vcd")?;
    Ok(Request::Import {
        team: team_of(alloc, options, "files")?,
        vcd,
    })
}

fn rules_request(alloc: Global, options: &ArgMatches) -> Result<Request, AllocError>
    ensures { IfOk result (IsRequest (codes "rules") (rows_of (found_of options.now))) }
{
    Ok(Request::Rules {
        axi: text_of(alloc, options, "axi")?,
    })
}

fn upgrade_request(alloc: Global, options: &ArgMatches) -> Result<Request, AllocError>
    ensures { IfOk result (IsRequest (codes "upgrade") (rows_of (found_of options.now))) }
{
    let code = text_of(alloc, options, "code")?;
    Ok(Request::Upgrade {
        code,
        out: text_of(alloc, options, "out")?,
    })
}

/// What the command of a name asks for.
fn named_request(alloc: Global, name: &str, options: &ArgMatches) -> Result<Request, AllocError>
    ensures { IfOk result (IsRequest name.now (rows_of (found_of options.now))) }
{
    match name {
        "check" => check_request(alloc, options),
        "build" => build_request(alloc, options),
        "verify" => verify_request(alloc, options),
        "run" => run_request(alloc, options),
        "judge" => judge_request(alloc, options),
        "rules" => rules_request(alloc, options),
        "upgrade" => upgrade_request(alloc, options),
        "explain" => explain_request(alloc, options),
        "lint" => lint_request(alloc, options),
        "names" => names_request(alloc, options),
        "import" => import_request(alloc, options),
        _ => Err(AllocError),
    }
}

/// What the command that was entered asks for.
fn request_of(alloc: Global, matches: &ArgMatches) -> Result<Request, AllocError>
    ensures { IfOk result (IsNamed matches.now) }
{
    match matches.subcommand() {
        Some((name, options)) => named_request(alloc, name, options),
        None => Err(AllocError),
    }
}

/// What the words of a command line ask for; the first is the program's name.
pub fn read_words(alloc: Global, words: &[&str]) -> Result<Request, WordsFault>
    ensures { IfOk result (IsAsked (map (λ w. w.now) words.now)) }
{
    let matches = svamon_command(alloc)?.try_get_matches_from(words)?;
    Ok(request_of(alloc, &matches)?)
}

//! The words of svamon's command line, and what they ask for.
//!
//! ```text
//! match read_words(alloc, &["svamon", "check", "--vcd", "top.vcd", "--sva", "rules.sva"]) {
//!     Ok(Request::Check { vcd, sva, axi, team, only, keep_going, workers, window, .. }) => ..,
//!     Ok(Request::Build { vcd, sva, axi, name, out }) => ..,
//!     Ok(Request::Verify { code }) => ..,
//!     Ok(Request::Run { vcd, code, workers, window }) => ..,
//!     Ok(Request::Judge { vcd, sva, axi }) => ..,
//!     Ok(Request::Explain { vcd, sva, axi, team, only, start, most, .. }) => ..,
//!     Ok(Request::Lint { vcd, sva, axi, team }) => ..,
//!     Ok(Request::Names { vcd, matching, scope }) => ..,
//!     Ok(Request::Import { team, vcd }) => ..,             // team.files, team.scope ..
//!     Ok(Request::Rules { axi }) => ..,
//!     Ok(Request::Upgrade { code, out }) => ..,
//!     Err(WordsFault::Words(error)) => ..,             // `{error}` is the text to show
//!     Err(WordsFault::OutOfMemory) => ..,
//! }
//! ```
//!
//! The words are read by `clap`, and what they give is `clap`'s own definition of that
//! (`subcommand_of`, for a command written out in `specs/Words.antt`): the command that is named,
//! and for each of its options the value after it or else its default; the files of `verify`,
//! `upgrade` and `import` are words alone. `--axi` may be left out where a text is read, as may
//! `--junit`, `--json` and `--html` of `check`, `--gtkw` of `explain`, all options of `names` but
//! the dump, and all of `import`, which gives None. `--sva`, `--sv`, `--only`, and the
//! files and `--define` of a team may be given again and again. The contract of `read_words` says
//! that a request is that command with those values, in their order, that there are 1 to 64
//! workers, that a window has from 1 to 65,536 clocks, that so many attempts are explained at
//! most, and that a bound is from 1 to 127. `overwritten` tells of a file that would be written
//! over one that is read, and `written_twice` of one that would be written over another one that is
//! written, by the paths alone (`specs/Files.antt`): by what is left of them without `.`, empty
//! parts, and `..` with the part before it (`specs/Paths.antt`). Words of which `asks_for_version`
//! holds are answered with `VERSION`, and ask for nothing else. Not promised: which words are
//! refused, as `--sv` beside `--sva`, and with what text; tests show that.
#![tactic(auto)]

mod clashes;
mod command;
mod fault;
mod option;
mod plain_paths;
mod read;
mod release;
mod request;
mod row;
mod rows;
mod team_files;

pub use clashes::{kept_paths, overwritten, written_paths, written_twice};
pub use fault::WordsFault;
pub use read::read_words;
pub use release::{VERSION, asks_for_version};
pub use request::Request;
pub use team_files::TeamFiles;

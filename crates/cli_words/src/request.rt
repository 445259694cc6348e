//! What the words of a command line ask for.

use crate::team_files::TeamFiles;

/// What the words ask for. Paths are as they were given.
#[derive(Drop)]
pub enum Request {
    /// Judges the assertions of a text over a dump, by so many workers through windows of so many
    /// clocks.
    Check {
        vcd: String,
        /// The files of the text, in the order in which they are joined.
        sva: Vec<String>,
        /// A port file: the rules of its ports stand after the text.
        axi: Option<String>,
        /// A team's own files, which are written as the text; none of them where a text is given.
        team: TeamFiles,
        /// Patterns of the names of the assertions that are judged; none where all are.
        only: Vec<String>,
        /// Whether what is refused is told, and the rest is judged.
        keep_going: bool,
        /// From 1 to 64.
        workers: u64,
        /// From 1 to 65,536.
        window: u64,
        /// The file into which the report is written as JUnit's XML.
        junit: Option<String>,
        /// The file into which the report is written as JSON.
        json: Option<String>,
        /// The file into which the report is written as a page of HTML.
        html: Option<String>,
    },
    /// Writes the bytecode of one assertion of a text into a file.
    Build {
        vcd: String,
        /// The files of the text, in the order in which they are joined.
        sva: Vec<String>,
        /// A port file: the rules of its ports stand after the text.
        axi: Option<String>,
        /// The assertion's name.
        name: String,
        /// The file to write.
        out: String,
    },
    /// Verifies a program and tells the limits that it declares.
    Verify {
        code: String,
    },
    /// Runs a program over a dump, by so many workers through windows of so many clocks.
    Run {
        vcd: String,
        code: String,
        /// From 1 to 64.
        workers: u64,
        /// From 1 to 65,536.
        window: u64,
    },
    /// Judges the assertions of a text over a dump by the slow judge.
    Judge {
        vcd: String,
        /// The files of the text, in the order in which they are joined.
        sva: Vec<String>,
        /// A port file: the rules of its ports stand after the text.
        axi: Option<String>,
    },
    /// Explains failed attempts of the assertions of a text over a dump.
    Explain {
        vcd: String,
        /// The files of the text, in the order in which they are joined.
        sva: Vec<String>,
        /// A port file: the rules of its ports stand after the text.
        axi: Option<String>,
        /// A team's own files, which are written as the text; none of them where a text is given.
        team: TeamFiles,
        /// Patterns of the names of the assertions that are asked for; none where all are.
        only: Vec<String>,
        /// Whether what is refused is told, and failures of the rest are explained.
        keep_going: bool,
        /// The clock at which the one attempt that is asked for began.
        start: Option<u64>,
        /// How many attempts of each assertion are explained at most, from 1 to 65,536.
        most: u64,
        /// The file into which signals and markers are written for GTKWave.
        gtkw: Option<String>,
    },
    /// Tells each refusal of the assertions of a text over a dump.
    Lint {
        vcd: String,
        /// The files of the text, in the order in which they are joined.
        sva: Vec<String>,
        /// A port file: the rules of its ports stand after the text.
        axi: Option<String>,
        /// A team's own files, which are written as the text; none of them where a text is given.
        team: TeamFiles,
    },
    /// Tells the names of a dump's variables.
    Names {
        vcd: String,
        /// A text that the names that are told hold.
        matching: Option<String>,
        /// The scope in which they stand.
        scope: Option<String>,
    },
    /// Writes the assertions of SystemVerilog files as a text.
    Import {
        team: TeamFiles,
        /// A dump, which has the widths of names.
        vcd: Option<String>,
    },
    /// Prints the rules of the ports of a port file.
    Rules {
        axi: String,
    },
    /// Writes a program anew in version 2 of its format into a file.
    Upgrade {
        code: String,
        /// The file to write.
        out: String,
    },
}

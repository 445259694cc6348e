//! The commands and their options, as tables.

use crate::row::{CommandRow, Kind, OptionRow, Tie};

/// What `--vcd` is, where it has to be there.
const VCD: OptionRow = OptionRow {
    name: "vcd",
    value: "FILE",
    help: "The dump, in VCD",
    kind: Kind::Needed,
    tie: Tie::Alone,
};

/// What `--sva` is, where there is no `--sv`.
const SVA: OptionRow = OptionRow {
    name: "sva",
    value: "FILE",
    help: "The assertions; several texts are joined, in this order",
    kind: Kind::Many,
    tie: Tie::UnlessPorts,
};

/// What `--sva` is, where there is `--sv`.
const SVA_OR_SV: OptionRow = OptionRow {
    name: "sva",
    value: "FILE",
    help: "The assertions; several texts are joined, in this order",
    kind: Kind::Many,
    tie: Tie::UnlessPortsOrTeam,
};

/// What `--axi` is beside a text.
const AXI: OptionRow = OptionRow {
    name: "axi",
    value: "FILE",
    help: "A port file, whose ports' rules stand after the assertions",
    kind: Kind::Free,
    tie: Tie::Alone,
};

/// What `--sv` is.
const SV: OptionRow = OptionRow {
    name: "sv",
    value: "FILE",
    help: "A team's SystemVerilog file, which is imported; several are joined, in this order",
    kind: Kind::Many,
    tie: Tie::NotBesideText,
};

/// What `--scope` is, for a team's files.
const SCOPE: OptionRow = OptionRow {
    name: "scope",
    value: "PATH",
    help: "The scope of the dump in which the files' names stand",
    kind: Kind::Free,
    tie: Tie::Alone,
};

/// What `--bound` is.
const BOUND: OptionRow = OptionRow {
    name: "bound",
    value: "TICKS",
    help: "What stands for $ in a range, and how long until waits, from 1 to 127",
    kind: Kind::Between(1, 127),
    tie: Tie::Alone,
};

/// What `--clock` is.
const CLOCK: OptionRow = OptionRow {
    name: "clock",
    value: "PATH",
    help: "Takes the assertions of this clock; without it, of the first one",
    kind: Kind::Free,
    tie: Tie::Alone,
};

/// What `--define` is.
const DEFINE: OptionRow = OptionRow {
    name: "define",
    value: "NAME[=TEXT]",
    help: "Defines a macro; may be given again and again",
    kind: Kind::Many,
    tie: Tie::Alone,
};

/// What `--split` is.
const SPLIT: OptionRow = OptionRow {
    name: "split",
    value: "",
    help: "Makes two of an assertion of two properties that is too heavy",
    kind: Kind::Flag,
    tie: Tie::Alone,
};

/// What `--only` is.
const ONLY: OptionRow = OptionRow {
    name: "only",
    value: "GLOB",
    help: "Takes these assertions alone: * in a name is any run of characters, ? is one",
    kind: Kind::Many,
    tie: Tie::Alone,
};

/// What `--keep-going` is.
const KEEP_GOING: OptionRow = OptionRow {
    name: "keep-going",
    value: "",
    help: "Tells all that is refused as lint does, and goes on with the rest",
    kind: Kind::Flag,
    tie: Tie::Alone,
};

/// What `--workers` is.
const WORKERS: OptionRow = OptionRow {
    name: "workers",
    value: "WORKERS",
    help: "How many workers there are, each a thread, from 1 to 64",
    kind: Kind::BetweenOr(1, 64, "4"),
    tie: Tie::Alone,
};

/// What `--window` is.
const WINDOW: OptionRow = OptionRow {
    name: "window",
    value: "CLOCKS",
    help: "How many clocks a window holds, from 1 to 65,536",
    kind: Kind::BetweenOr(1, 65536, "1024"),
    tie: Tie::Alone,
};

/// What `--start` is: a clock, from 0 to 2^48 - 1.
const START: OptionRow = OptionRow {
    name: "start",
    value: "CLOCK",
    help: "The clock at which the attempt began that is explained",
    kind: Kind::Between(0, 281474976710655),
    tie: Tie::Alone,
};

/// What `--most` is.
const MOST: OptionRow = OptionRow {
    name: "most",
    value: "COUNT",
    help: "How many failures of each assertion are explained at most, from 1 to 65,536",
    kind: Kind::BetweenOr(1, 65536, "1"),
    tie: Tie::Alone,
};

/// What `--junit` is.
const JUNIT: OptionRow = OptionRow {
    name: "junit",
    value: "FILE",
    help: "Writes the report into a file, as JUnit's XML",
    kind: Kind::Free,
    tie: Tie::Alone,
};

/// What `--json` is.
const JSON: OptionRow = OptionRow {
    name: "json",
    value: "FILE",
    help: "Writes the report into a file, as JSON",
    kind: Kind::Free,
    tie: Tie::Alone,
};

/// What `--html` is.
const HTML: OptionRow = OptionRow {
    name: "html",
    value: "FILE",
    help: "Writes the report into a file, as a page of HTML",
    kind: Kind::Free,
    tie: Tie::Alone,
};

/// What `--gtkw` is.
const GTKW: OptionRow = OptionRow {
    name: "gtkw",
    value: "FILE",
    help: "Writes the signals and markers of the failures into a file, for GTKWave",
    kind: Kind::Free,
    tie: Tie::Alone,
};

/// What `--name` is.
const NAME: OptionRow = OptionRow {
    name: "name",
    value: "NAME",
    help: "The assertion's name",
    kind: Kind::Needed,
    tie: Tie::Alone,
};

/// What `--out` is.
const OUT: OptionRow = OptionRow {
    name: "out",
    value: "FILE",
    help: "The file to write",
    kind: Kind::Needed,
    tie: Tie::Alone,
};

/// What `--code` is.
const CODE: OptionRow = OptionRow {
    name: "code",
    value: "FILE",
    help: "The program, in bytecode",
    kind: Kind::Needed,
    tie: Tie::Alone,
};

/// The program that `verify` takes as a word alone.
const VERIFIED: OptionRow = OptionRow {
    name: "code",
    value: "FILE",
    help: "The program, in bytecode",
    kind: Kind::Word,
    tie: Tie::Alone,
};

/// The program that `upgrade` takes as a word alone.
const UPGRADED: OptionRow = OptionRow {
    name: "code",
    value: "FILE",
    help: "The program, in bytecode of version 1 or 2",
    kind: Kind::Word,
    tie: Tie::Alone,
};

/// What `--axi` is where there is no text.
const PORTS: OptionRow = OptionRow {
    name: "axi",
    value: "FILE",
    help: "The port file",
    kind: Kind::Needed,
    tie: Tie::Alone,
};

/// What `--match` is.
const MATCH: OptionRow = OptionRow {
    name: "match",
    value: "TEXT",
    help: "Tells the names that hold this text alone",
    kind: Kind::Free,
    tie: Tie::Alone,
};

/// What `--scope` is, for a dump's names.
const NAMES_SCOPE: OptionRow = OptionRow {
    name: "scope",
    value: "PATH",
    help: "Tells the names of this scope, and of those in it, alone",
    kind: Kind::Free,
    tie: Tie::Alone,
};

/// The files that `import` takes as words alone.
const FILES: OptionRow = OptionRow {
    name: "files",
    value: "FILE",
    help: "SystemVerilog files, which are joined in this order",
    kind: Kind::Words,
    tie: Tie::Alone,
};

/// What `--vcd` is, where it may be left out.
const WIDTHS: OptionRow = OptionRow {
    name: "vcd",
    value: "FILE",
    help: "A dump, which has the widths of names",
    kind: Kind::Free,
    tie: Tie::Alone,
};

/// What `--scope` is beside `--sv`.
const TEAM_SCOPE: OptionRow = OptionRow {
    tie: Tie::WithTeam,
    ..SCOPE
};

/// What `--bound` is beside `--sv`.
const TEAM_BOUND: OptionRow = OptionRow {
    tie: Tie::WithTeam,
    ..BOUND
};

/// What `--clock` is beside `--sv`.
const TEAM_CLOCK: OptionRow = OptionRow {
    tie: Tie::WithTeam,
    ..CLOCK
};

/// What `--define` is beside `--sv`.
const TEAM_DEFINE: OptionRow = OptionRow {
    tie: Tie::WithTeam,
    ..DEFINE
};

/// What `--split` is beside `--sv`.
const TEAM_SPLIT: OptionRow = OptionRow {
    tie: Tie::WithTeam,
    ..SPLIT
};

/// The options of `check`.
const CHECK: [OptionRow; 16] = [
    VCD,
    SVA_OR_SV,
    AXI,
    SV,
    TEAM_SCOPE,
    TEAM_BOUND,
    TEAM_CLOCK,
    TEAM_DEFINE,
    TEAM_SPLIT,
    ONLY,
    KEEP_GOING,
    WORKERS,
    WINDOW,
    JUNIT,
    JSON,
    HTML,
];

/// The options of `build`.
const BUILD: [OptionRow; 5] = [VCD, SVA, AXI, NAME, OUT];

/// The options of `verify`.
const VERIFY: [OptionRow; 1] = [VERIFIED];

/// The options of `run`.
const RUN: [OptionRow; 4] = [VCD, CODE, WORKERS, WINDOW];

/// The options of `judge`.
const JUDGE: [OptionRow; 3] = [VCD, SVA, AXI];

/// The options of `rules`.
const RULES: [OptionRow; 1] = [PORTS];

/// The options of `upgrade`.
const UPGRADE: [OptionRow; 2] = [UPGRADED, OUT];

/// The options of `explain`.
const EXPLAIN: [OptionRow; 14] = [
    VCD,
    SVA_OR_SV,
    AXI,
    SV,
    TEAM_SCOPE,
    TEAM_BOUND,
    TEAM_CLOCK,
    TEAM_DEFINE,
    TEAM_SPLIT,
    ONLY,
    KEEP_GOING,
    START,
    MOST,
    GTKW,
];

/// The options of `lint`.
const LINT: [OptionRow; 9] = [
    VCD,
    SVA_OR_SV,
    AXI,
    SV,
    TEAM_SCOPE,
    TEAM_BOUND,
    TEAM_CLOCK,
    TEAM_DEFINE,
    TEAM_SPLIT,
];

/// The options of `names`.
const NAMES: [OptionRow; 3] = [VCD, MATCH, NAMES_SCOPE];

/// The options of `import`.
const IMPORT: [OptionRow; 7] = [FILES, SCOPE, BOUND, WIDTHS, CLOCK, DEFINE, SPLIT];

/// The commands.
pub(crate) const COMMANDS: [CommandRow; 11] = [
    CommandRow {
        name: "check",
        about: "Judges assertions over a dump and prints the report",
        options: &CHECK,
    },
    CommandRow {
        name: "build",
        about: "Writes the bytecode of one assertion",
        options: &BUILD,
    },
    CommandRow {
        name: "verify",
        about: "Verifies a program and prints the limits that it declares",
        options: &VERIFY,
    },
    CommandRow {
        name: "run",
        about: "Runs a program over a dump and prints the report",
        options: &RUN,
    },
    CommandRow {
        name: "judge",
        about: "Prints the same report by the slow judge",
        options: &JUDGE,
    },
    CommandRow {
        name: "rules",
        about: "Prints the rules of the ports of a port file",
        options: &RULES,
    },
    CommandRow {
        name: "upgrade",
        about: "Writes a program anew in version 2 of the bytecode",
        options: &UPGRADE,
    },
    CommandRow {
        name: "explain",
        about: "Explains failed attempts of assertions over a dump",
        options: &EXPLAIN,
    },
    CommandRow {
        name: "lint",
        about: "Tells each refusal of assertions over a dump",
        options: &LINT,
    },
    CommandRow {
        name: "names",
        about: "Tells the names of a dump's variables",
        options: &NAMES,
    },
    CommandRow {
        name: "import",
        about: "Writes a team's SystemVerilog assertions as a text for --sva",
        options: &IMPORT,
    },
];

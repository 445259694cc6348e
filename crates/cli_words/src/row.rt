//! The rows of the tables of commands and options.

/// What is given for an option, and whether it has to be.
#[derive(Clone, Copy)]
pub(crate) enum Kind {
    /// One value, which has to be there.
    Needed,
    /// One value, which may be left out.
    Free,
    /// A value, which may be left out, and given again and again.
    Many,
    /// Nothing: the option alone.
    Flag,
    /// A word alone, which has to be there.
    Word,
    /// Words alone, of which there has to be one.
    Words,
    /// A number between two, which may be left out.
    Between(u64, u64),
    /// A number between two, and the one that counts where it is left out.
    BetweenOr(u64, u64, &'static str),
}

/// How an option hangs on others.
#[derive(Clone, Copy)]
pub(crate) enum Tie {
    /// It doesn't.
    Alone,
    /// It has to be there unless there are ports.
    UnlessPorts,
    /// It has to be there unless there are ports or a team's files.
    UnlessPortsOrTeam,
    /// It can't stand beside a text or ports.
    NotBesideText,
    /// It wants a team's files, and can't stand beside a text or ports.
    WithTeam,
}

/// An option: its name, that of its value, its help, and what is asked of it.
#[derive(Clone, Copy)]
pub(crate) struct OptionRow {
    pub(crate) name: &'static str,
    pub(crate) value: &'static str,
    pub(crate) help: &'static str,
    pub(crate) kind: Kind,
    pub(crate) tie: Tie,
}

/// A command: its name, what it does, and its options.
#[derive(Clone, Copy)]
pub(crate) struct CommandRow {
    pub(crate) name: &'static str,
    pub(crate) about: &'static str,
    pub(crate) options: &'static [OptionRow],
}

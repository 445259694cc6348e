//! An option, from a row of a table.

ghost use Rattle.std.specs.Prelude.{◌≡◌, IfOk, Some, false};
ghost use Rattle.clap.specs.Words.{rule_of};
ghost use Rattle.clap.specs.declared.builder.value_parser.ValueParser.TheVariants.{Unsigned};
ghost use Rattle.cli_words.specs.Rows.{kind_rule, tie_rule, row_rule};

use crate::row::{Kind, OptionRow, Tie};
use clap::builder::ValueParser;
use clap::{Arg, ArgAction};
use std::alloc::{AllocError, Global};

/// The option with a number as its value, between two.
fn within<'a>(option: Arg<'a>, least: u64, most: u64) -> Arg<'a>
    ensures { result ≡ record option.entry { value_parser = Some (Unsigned least most) } }
{
    option.value_parser(ValueParser::unsigned(least, most))
}

/// The option of a row, as if it hung on no other.
fn untied<'a>(alloc: Global, row: &OptionRow) -> Arg<'a>
    ensures rule { rule_of result ≡ kind_rule row.now.name.now row.now.kind }
    ensures local { result.global ≡ false }
{
    let option = Arg::new(alloc, row.name).help(row.help);
    match row.kind {
        Kind::Needed => option.long(row.name).value_name(row.value).required(true),
        Kind::Free => option.long(row.name).value_name(row.value),
        Kind::Many => option
            .long(row.name)
            .value_name(row.value)
            .action(ArgAction::Append),
        Kind::Flag => option.long(row.name).action(ArgAction::SetTrue),
        Kind::Word => option.value_name(row.value).required(true),
        Kind::Words => option
            .value_name(row.value)
            .required(true)
            .action(ArgAction::Append),
        Kind::Between(least, most) => {
            within(option.long(row.name).value_name(row.value), least, most)
        }
        Kind::BetweenOr(least, most, default) => {
            let named = option.long(row.name).value_name(row.value);
            within(named.default_value(default), least, most)
        }
    }
}

/// The option, with what it hangs on.
fn tied<'a>(option: Arg<'a>, tie: Tie) -> Result<Arg<'a>, AllocError>
    requires { option.global ≡ false }
    ensures rule { IfOk result (λ o. rule_of o ≡ tie_rule tie (rule_of option.entry)) }
    ensures local { IfOk result (λ o. o.global ≡ false) }
{
    match tie {
        Tie::Alone => Ok(option),
        Tie::UnlessPorts => option.required_unless_present("axi"),
        Tie::UnlessPortsOrTeam => option.required_unless_present_any(&["axi", "sv"]),
        Tie::NotBesideText => option.conflicts_with_all(&["sva", "axi"]),
        Tie::WithTeam => option
            .requires_arg("sv")?
            .conflicts_with_all(&["sva", "axi"]),
    }
}

/// The option of a row.
pub(crate) fn option_of<'a>(alloc: Global, row: &OptionRow) -> Result<Arg<'a>, AllocError>
    ensures rule { IfOk result (λ o. rule_of o ≡ row_rule row.now) }
    ensures local { IfOk result (λ o. o.global ≡ false) }
{
    tied(untied(alloc, row), row.tie)
}

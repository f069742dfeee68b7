//! Options that subcommands share, and what they are given.

ghost use Rattle.std.specs.Prelude.{◌≡◌, IfOk, option_map, false};
ghost use Rattle.std.specs.Option.{option_and_then, option_map_or};
ghost use Rattle.clap.specs.Simple.{App, new_app, with_rule};
ghost use Rattle.clap.specs.Walk.{Rule, first_of, rule_of};
ghost use Rattle.clap.specs.Words.{found_of, rows_of};
ghost use Rattle.ynl_words.specs.Words.{IsApp};
ghost use Rattle.ynl_words.specs.Words as spec;

use clap::{Arg, ArgAction, ArgMatches, Command};
use std::alloc::{AllocError, Global};
use ynl_check::Form;
use ynl_resource::{Label, Name};

const CONFIG_HELP: &str =
    "The configuration, a TOML text, of which ynl check tells what it says or where its fault is; without it there is one queue, root.eng, and one label, gpu";

const FROM_HELP: &str = "The state to begin from, as ynl save wrote it, and not the opening state";

const TENANT_HELP: &str = "The tenant, by the name of its top-level queue";

const LABEL_HELP: &str = "The label of its partition";

/// A subcommand without options.
pub(crate) fn bare<'a>(
    alloc: Global,
    name: &'a str,
    about: &'a str,
    after_help: &'a str,
) -> Result<Command<'a>, AllocError>
    ensures { IfOk result (IsApp (new_app name.now)) }
{
    Ok(
        Command::new(alloc, name)
            .about(about)
            .after_help(after_help),
    )
}

/// An option that takes a value.
pub(crate) fn valued<'a>(alloc: Global, name: &'a str, value: &'a str, help: &'a str) -> Arg<'a>
    ensures rule { rule_of result ≡ spec.valued name.now }
    ensures local { result.global ≡ false }
{
    Arg::new(alloc, name)
        .long(name)
        .value_name(value)
        .help(help)
}

/// The option that names the file of the configuration.
pub(crate) fn config_option<'a>(alloc: Global) -> Arg<'a>
    ensures rule { rule_of result ≡ spec.config_rule }
    ensures local { result.global ≡ false }
{
    valued(alloc, "config", "FILE", CONFIG_HELP)
}

/// The option that names the file of the state to begin from.
fn from_option<'a>(alloc: Global) -> Arg<'a>
    ensures rule { rule_of result ≡ spec.from_rule }
    ensures local { result.global ≡ false }
{
    valued(alloc, "from", "FILE", FROM_HELP)
}

/// The option that names the tenant.
pub(crate) fn tenant_option<'a>(alloc: Global) -> Arg<'a>
    ensures rule { rule_of result ≡ spec.tenant_rule }
    ensures local { result.global ≡ false }
{
    valued(alloc, "tenant", "NAME", TENANT_HELP).required(true)
}

/// The option that names the label.
fn label_option<'a>(alloc: Global) -> Arg<'a>
    ensures rule { rule_of result ≡ spec.label_rule }
    ensures local { result.global ≡ false }
{
    valued(alloc, "label", "LABEL", LABEL_HELP).required(true)
}

/// The flag for what a reader is to read.
pub(crate) fn plain_option<'a>(alloc: Global, help: &'a str) -> Arg<'a>
    ensures rule { rule_of result ≡ spec.plain_rule }
    ensures local { result.global ≡ false }
{
    Arg::new(alloc, "plain")
        .long("plain")
        .action(ArgAction::SetTrue)
        .help(help)
}

/// The subcommand with an option more. Each is handed on as a result, so that one is let go here alone where memory is
/// refused.
pub(crate) fn with_option<'a>(
    command: Result<Command<'a>, AllocError>,
    option: Arg<'a>,
) -> Result<Command<'a>, AllocError>
    requires { option.global ≡ false }
    ensures { (a : App) (r : Rule) → rule_of option.entry ≡ r → IfOk command.entry (IsApp a) → IfOk result (IsApp (with_rule a r)) }
{
    command?.arg(option)
}

/// The subcommand with the options that name a tenant's partition, and behind them the one that names the configuration.
pub(crate) fn with_partition<'a>(
    alloc: Global,
    command: Result<Command<'a>, AllocError>,
) -> Result<Command<'a>, AllocError>
    ensures { (a : App) → IfOk command.entry (IsApp a) → IfOk result (IsApp (spec.with_partition a)) }
{
    let command = with_option(command, tenant_option(alloc));
    let command = with_option(command, label_option(alloc));
    with_option(command, config_option(alloc))
}

/// The subcommand with the options that name the files of the configuration and of the state to begin from.
pub(crate) fn with_files<'a>(
    alloc: Global,
    command: Result<Command<'a>, AllocError>,
) -> Result<Command<'a>, AllocError>
    ensures { (a : App) → IfOk command.entry (IsApp a) → IfOk result (IsApp (spec.with_files a)) }
{
    let command = with_option(command, config_option(alloc));
    with_option(command, from_option(alloc))
}

/// The subcommand with two options more, and behind them those that name the files.
pub(crate) fn with_options_and_files<'a>(
    alloc: Global,
    command: Result<Command<'a>, AllocError>,
    first: Arg<'a>,
    second: Arg<'a>,
) -> Result<Command<'a>, AllocError>
    requires first { first.global ≡ false }
    requires second { second.global ≡ false }
    ensures { (a : App) (r s : Rule) → rule_of first.entry ≡ r → rule_of second.entry ≡ s → IfOk command.entry (IsApp a)
        → IfOk result (IsApp (spec.with_options_and_files a r s)) }
{
    let command = with_option(with_option(command, first), second);
    with_files(alloc, command)
}

/// The text that an option is given.
pub(crate) fn value_in<'a>(options: &ArgMatches<'a>, option: &str) -> Option<&'a str>
    ensures { option_map (λ s. s.now) result
        ≡ first_of option.now (rows_of (found_of options.now)) }
{
    options.get_str(option)
}

/// The name that a text is.
pub(crate) fn name_in(text: Option<&str>) -> Option<Name>
    ensures { result ≡ option_and_then spec.name_in (option_map (λ s. s.now) text.entry) }
{
    match text {
        Some(text) => Name::parse(text).ok(),
        None => None,
    }
}

/// The label that a text is.
pub(crate) fn label_in(text: Option<&str>) -> Option<Label>
    ensures { result ≡ option_and_then spec.label_in (option_map (λ s. s.now) text.entry) }
{
    match text {
        Some(text) => Label::parse(text).ok(),
        None => None,
    }
}

/// The tenant and the label that are given.
pub(crate) fn partition_in(options: &ArgMatches<'_>) -> Option<(Name, Label)>
    ensures { result ≡ spec.partition_met (rows_of (found_of options.now)) }
{
    let tenant = name_in(value_in(options, "tenant"));
    let label = label_in(value_in(options, "label"));
    tenant.zip(label)
}

/// The form that the flag asks for, by the text of its value.
pub(crate) fn form_in(text: Option<&str>) -> Form
    ensures { result ≡ option_map_or spec.form_in (option_map (λ s. s.now) text.entry) Form.Lines }
{
    match text {
        Some("true") => Form::Plain,
        _ => Form::Lines,
    }
}

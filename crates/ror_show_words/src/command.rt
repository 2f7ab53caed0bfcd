//! What a page takes, as a command of `clap`.

ghost use Rattle.std.specs.Prelude.{◌≡◌, IfOk};
ghost use Rattle.clap.specs.Words.{app_of, with_rule};
ghost use Rattle.ror_show_words.specs.Words.{name_rule, spare_rule, option_rule, flag_rule, pair_rule, bare_app, named_app, single_app, page_app, check_app, sheet_app, import_app};

use clap::{Arg, ArgAction, Command};
use std::alloc::{AllocError, Global};

/// The names and options after the word of a page.
#[tactic(auto, unfolding(crate::specs::Words::page_app))]
pub(crate) fn page_command<'a>(alloc: Global) -> Result<Command<'a>, AllocError>
    ensures { IfOk result (λ c. app_of c ≡ page_app) }
{
    with_pair(alloc, single_command(alloc)?, "pair")
}

/// The same, without the option that has two values.
#[tactic(auto, unfolding(crate::specs::Words::single_app))]
fn single_command<'a>(alloc: Global) -> Result<Command<'a>, AllocError>
    ensures { IfOk result (λ c. app_of c ≡ single_app) }
{
    let command = with_flag(alloc, named_command(alloc)?, "best-first")?;
    let command = with_option(alloc, command, "line")?;
    let command = with_option(alloc, command, "desk")?;
    with_option(alloc, command, "as")
}

/// The names and options after the word of the check of certificates.
#[tactic(auto, unfolding(crate::specs::Words::check_app))]
pub(crate) fn check_command<'a>(alloc: Global) -> Result<Command<'a>, AllocError>
    ensures { IfOk result (λ c. app_of c ≡ check_app) }
{
    let command = with_name(alloc, named_command(alloc)?, "CERTIFICATES")?;
    with_flag(alloc, command, "best-first")
}

/// The names and options after the word of the page of what was read.
#[tactic(auto, unfolding(crate::specs::Words::sheet_app))]
pub(crate) fn sheet_command<'a>(alloc: Global) -> Result<Command<'a>, AllocError>
    ensures { IfOk result (λ c. app_of c ≡ sheet_app) }
{
    let command = with_name(alloc, bare_command(alloc), "TABLE")?;
    let command = with_spare_name(alloc, command, "SESSION")?;
    with_flag(alloc, command, "best-first")
}

/// The name and options after the word of the table of a spreadsheet.
#[tactic(auto, unfolding(crate::specs::Words::import_app))]
pub(crate) fn import_command<'a>(alloc: Global) -> Result<Command<'a>, AllocError>
    ensures { IfOk result (λ c. app_of c ≡ import_app) }
{
    let command = with_name(alloc, bare_command(alloc), "FILE")?;
    let command = with_option(alloc, command, "min")?;
    let command = with_option(alloc, command, "max")?;
    with_option(alloc, command, "linear")
}

/// A command with the names of the three files.
#[tactic(auto, unfolding(crate::specs::Words::named_app))]
fn named_command<'a>(alloc: Global) -> Result<Command<'a>, AllocError>
    ensures { IfOk result (λ c. app_of c ≡ named_app) }
{
    let command = with_name(alloc, bare_command(alloc), "TABLE")?;
    let command = with_name(alloc, command, "SESSION")?;
    with_name(alloc, command, "REPORT")
}

/// A command that takes no word as the program's name, and has no words for help and version.
fn bare_command<'a>(alloc: Global) -> Command<'a>
    ensures { app_of result ≡ bare_app }
{
    Command::new(alloc, "ror_show")
        .no_binary_name(true)
        .disable_help_flag(true)
        .disable_version_flag(true)
}

/// The command with one more name, which it needs.
fn with_name<'a>(
    alloc: Global,
    command: Command<'a>,
    id: &'a str,
) -> Result<Command<'a>, AllocError>
    ensures { IfOk result (λ c. app_of c ≡ with_rule (app_of command.entry) (name_rule id.entry.now)) }
{
    command.arg(Arg::new(alloc, id).required(true))
}

/// The command with one more name, which may be left out.
fn with_spare_name<'a>(
    alloc: Global,
    command: Command<'a>,
    id: &'a str,
) -> Result<Command<'a>, AllocError>
    ensures { IfOk result (λ c. app_of c ≡ with_rule (app_of command.entry) (spare_rule id.entry.now)) }
{
    command.arg(Arg::new(alloc, id))
}

/// The command with an option that has a value.
fn with_option<'a>(
    alloc: Global,
    command: Command<'a>,
    id: &'a str,
) -> Result<Command<'a>, AllocError>
    ensures { IfOk result (λ c. app_of c ≡ with_rule (app_of command.entry) (option_rule id.entry.now)) }
{
    command.arg(Arg::new(alloc, id).long(id))
}

/// The command with an option that has two values.
fn with_pair<'a>(
    alloc: Global,
    command: Command<'a>,
    id: &'a str,
) -> Result<Command<'a>, AllocError>
    ensures { IfOk result (λ c. app_of c ≡ with_rule (app_of command.entry) (pair_rule id.entry.now)) }
{
    command.arg(Arg::new(alloc, id).long(id).num_args(2))
}

/// The command with an option that has none.
fn with_flag<'a>(
    alloc: Global,
    command: Command<'a>,
    id: &'a str,
) -> Result<Command<'a>, AllocError>
    ensures { IfOk result (λ c. app_of c ≡ with_rule (app_of command.entry) (flag_rule id.entry.now)) }
{
    command.arg(Arg::new(alloc, id).long(id).action(ArgAction::SetTrue))
}

//! The command line, which `clap` parses.

ghost use Rattle.std.specs.Prelude.{◌≡◌, ◌∷◌, ◌++◌, [], IfOk, map, true};
ghost use Rattle.clap.specs.Words.{SameNames, names_in, subcommand_names};
ghost use Rattle.clap.specs.declared.builder.command.Command.TheViews.{out-Command as fields_of};

use crate::argument_rows::{
    audit_arguments, check_arguments, compare_arguments, explain_arguments, line_arguments,
    names_arguments, run_arguments, show_arguments, test_arguments, value_arguments,
};
use crate::arguments::{Argument, Host, make_arguments};
use crate::command_rows::{Form, command_forms, program_form};
use crate::names::{
    AUDIT, CHECK, COMPARE, EXPLAIN_RECORD, EXPLAINED, NAMES, RUN, SHOW, TEST, VALUE,
};
use clap::{Arg, ArgGroup, ArgMatches, Command, Error};
use std::alloc::{AllocError, Global};

/// Parses the words of a command line, of which the first is the program's name. The error is one of usage, or asks for help or the version, or is
/// out of memory. `workers_limit` is the greatest value of `--workers`, and `terminal` the terminal's width, as `terminal_columns` returns it.
pub fn matches_of<'a>(
    alloc: Global,
    words: &'a [String],
    workers_limit: usize,
    terminal: Option<&'a str>,
) -> Result<ArgMatches<'a>, Error> {
    let host = Host {
        workers_limit: workers_limit as u64,
        terminal,
    };
    command_line(alloc, &host)?.try_get_matches_from(words)
}

fn command_line<'a>(alloc: Global, host: &Host<'a>) -> Result<Command<'a>, AllocError>
    ensures { IfOk result (λ line. subcommand_names line
        ≡ VALUE.now ∷ CHECK.now ∷ RUN.now ∷ AUDIT.now ∷ EXPLAIN_RECORD.now ∷ TEST.now
        ∷ COMPARE.now ∷ NAMES.now ∷ SHOW.now ∷ []) }
{
    let commands = make_commands(alloc, host)?;
    bare_line(alloc, host)?.subcommands(commands)
}

fn bare_line<'a>(alloc: Global, host: &Host<'a>) -> Result<Command<'a>, AllocError>
    ensures { IfOk result (λ line. subcommand_names line ≡ []) }
{
    let line = make_command(alloc, program_form(), line_arguments(), host)?;
    strict_line(line).bin_name("adjudicate")
}

fn strict_line<'a>(line: Command<'a>) -> Command<'a>
    ensures { subcommand_names result ≡ subcommand_names line.entry }
{
    line.version("0.1.0")
        .subcommand_required(true)
        .arg_required_else_help(true)
}

fn make_commands<'a>(alloc: Global, host: &Host<'a>) -> Result<Vec<Command<'a>>, AllocError>
    ensures { IfOk result (λ commands. names_in commands.items
        ≡ VALUE.now ∷ CHECK.now ∷ RUN.now ∷ AUDIT.now ∷ EXPLAIN_RECORD.now ∷ TEST.now
        ∷ COMPARE.now ∷ NAMES.now ∷ SHOW.now ∷ []) }
{
    let mut commands = Vec::new(alloc);
    push_commands(alloc, command_forms(), host, &mut commands)?;
    Ok(commands)
}

fn push_commands<'a>(
    alloc: Global,
    forms: &[Form],
    host: &Host<'a>,
    commands: &mut Vec<Command<'a>>,
) -> Result<(), AllocError>
    requires { commands.old.items ≡ [] }
    ensures { IfOk result (λ _. names_in commands.new.items
        ≡ map (λ form. form.name.now) forms.now) }
{
    'forms: for form in forms {
        let command = make_command(alloc, form, arguments_of(form.name), host)?;
        push_command(command, commands)?;
    }
    Ok(())
}

fn push_command<'a>(command: Command<'a>, commands: &mut Vec<Command<'a>>) -> Result<(), AllocError>
    ensures { IfOk result (λ _. commands.new.items ≡ commands.old.items ++ command.entry ∷ []) }
{
    commands.push(command)?;
    Ok(())
}

fn arguments_of(command: &str) -> &'static [Argument] {
    match command {
        VALUE => value_arguments(),
        CHECK => check_arguments(),
        RUN => run_arguments(),
        AUDIT => audit_arguments(),
        EXPLAIN_RECORD => explain_arguments(),
        TEST => test_arguments(),
        COMPARE => compare_arguments(),
        NAMES => names_arguments(),
        _ => show_arguments(),
    }
}

fn make_command<'a>(
    alloc: Global,
    form: &Form,
    arguments: &[Argument],
    host: &Host<'a>,
) -> Result<Command<'a>, AllocError>
    ensures name { IfOk result (λ command.
        (fields_of command).name.now ≡ form.now.name.now) }
    ensures alone { IfOk result (λ command. subcommand_names command ≡ []) }
{
    let arguments = make_arguments(alloc, arguments, host)?;
    let groups = make_groups(alloc, form.choice)?;
    filled_command(bare_command(alloc, form), arguments, groups)
}

fn filled_command<'a>(
    command: Command<'a>,
    arguments: Vec<Arg<'a>>,
    groups: Vec<ArgGroup<'a>>,
) -> Result<Command<'a>, AllocError>
    ensures { IfOk result (λ filled. SameNames command.entry filled) }
{
    command.args(arguments)?.groups(groups)
}

fn bare_command<'a>(alloc: Global, form: &Form) -> Command<'a>
    ensures name { (fields_of result).name.now ≡ form.now.name.now }
    ensures alone { subcommand_names result ≡ [] }
{
    Command::new(alloc, form.name)
        .about(form.about)
        .after_help(form.after_help)
}

fn make_groups<'a>(
    alloc: Global,
    choice: &[&'static str],
) -> Result<Vec<ArgGroup<'a>>, AllocError> {
    let mut groups = Vec::new(alloc);
    if !choice.is_empty() {
        groups.push(choice_group(alloc, choice)?)?;
    }
    Ok(groups)
}

/// The group of the arguments of which exactly one is needed.
fn choice_group<'a>(alloc: Global, choice: &[&'static str]) -> Result<ArgGroup<'a>, AllocError>
    ensures needed { IfOk result (λ group. group.required ≡ true) }
{
    ArgGroup::new(alloc, EXPLAINED).required(true).args(choice)
}

//! The form of an argument of a command, and the making of arguments for `clap`.

ghost use Rattle.std.specs.Prelude.{◌≡◌, None, IfOk};
ghost use Rattle.clap.specs.Words.{parser_of};
ghost use Rattle.console.specs.Forms.{parser_for};
ghost use Rattle.console.specs.Limits.{least_width, width_limit};

use crate::terminal::{LEAST_WIDTH, WIDTH_LIMIT};
use clap::builder::ValueParser;
use clap::{Arg, ArgAction};
use std::alloc::{AllocError, Global};

/// An argument of a command.
pub struct Argument {
    /// The name under which `clap` keeps its values.
    pub name: &'static str,
    /// The word after `--`. An argument without one is known by its place.
    pub long: Option<&'static str>,
    /// The word for the value in the help, where the argument's name does not serve.
    pub value_names: &'static [&'static str],
    pub help: &'static str,
    pub takes: Takes,
    pub is_required: bool,
    /// Whether a flag may also follow the name of a command.
    pub is_global: bool,
    /// The arguments that are not given together with it.
    pub excludes: &'static [&'static str],
    /// The arguments that it is only given with.
    pub needs: &'static [&'static str],
}

/// The values that an argument takes.
pub enum Takes {
    /// None: the argument is a flag.
    Nothing,
    /// One text.
    Text,
    /// Texts one after the other, at least this number of them.
    Texts(usize),
    /// A text at each use.
    TextEachTime,
    /// A number, from the first bound to the second one.
    Number(u64, u64),
    /// One of these words.
    Words(&'static [&'static str]),
    /// A number of worker threads, from 1 to the limit of the host.
    Workers,
    /// The width of lines, in columns. The default is that of the terminal.
    Width,
}

/// What the command line takes from the host.
#[derive(Drop)]
pub struct Host<'a> {
    /// The greatest number of worker threads.
    pub workers_limit: u64,
    /// The terminal's width, if it is known. Its text must be a value of `--width`.
    pub terminal: Option<&'a str>,
}

/// An optional text without a name, from which the arguments differ.
pub const PLAIN: Argument = Argument {
    name: "",
    long: None,
    value_names: &[],
    help: "",
    takes: Takes::Text,
    is_required: false,
    is_global: false,
    excludes: &[],
    needs: &[],
};

/// The arguments of these forms, in their order.
pub fn make_arguments<'a>(
    alloc: Global,
    forms: &[Argument],
    host: &Host<'a>,
) -> Result<Vec<Arg<'a>>, AllocError> {
    let mut arguments = Vec::new(alloc);
    push_arguments(alloc, forms, host, &mut arguments)?;
    Ok(arguments)
}

fn push_arguments<'a>(
    alloc: Global,
    forms: &[Argument],
    host: &Host<'a>,
    arguments: &mut Vec<Arg<'a>>,
) -> Result<(), AllocError> {
    for form in forms {
        let argument = make_argument(alloc, form, host)?;
        push_argument(argument, arguments)?;
    }
    Ok(())
}

fn push_argument<'a>(argument: Arg<'a>, arguments: &mut Vec<Arg<'a>>) -> Result<(), AllocError> {
    arguments.push(argument)?;
    Ok(())
}

fn make_argument<'a>(alloc: Global, form: &Argument, host: &Host<'a>) -> Result<Arg<'a>, AllocError>
    ensures required { IfOk result (λ arg. arg.required ≡ form.now.is_required) }
    ensures parser { IfOk result (λ arg.
        parser_of arg ≡ parser_for host.now.workers_limit form.now.takes) }
{
    valued_argument(alloc, form, host)
        .required(form.is_required)
        .conflicts_with_all(form.excludes)?
        .requires_all(form.needs)
}

// Each branch makes its argument itself: one that lives across a branch is costly to prove.
fn valued_argument<'a>(alloc: Global, form: &Argument, host: &Host<'a>) -> Arg<'a>
    ensures { parser_of result ≡ parser_for host.now.workers_limit form.now.takes }
{
    match form.takes {
        Takes::Nothing => flag_argument(alloc, form),
        Takes::Text => named_argument(alloc, form),
        Takes::Texts(least) => texts_argument(alloc, form, least),
        Takes::TextEachTime => repeated_argument(alloc, form),
        Takes::Number(least, greatest) => {
            parsed_argument(alloc, form, ValueParser::Unsigned(least, greatest))
        }
        Takes::Words(words) => parsed_argument(alloc, form, ValueParser::Names(words)),
        Takes::Workers => workers_argument(alloc, form, host.workers_limit),
        Takes::Width => width_argument(alloc, form, host.terminal),
    }
}

fn flag_argument<'a>(alloc: Global, form: &Argument) -> Arg<'a>
    ensures { result.value_parser ≡ None }
{
    named_argument(alloc, form)
        .action(ArgAction::SetTrue)
        .global(form.is_global)
}

fn texts_argument<'a>(alloc: Global, form: &Argument, least: usize) -> Arg<'a>
    ensures { result.value_parser ≡ None }
{
    named_argument(alloc, form)
        .action(ArgAction::Append)
        .num_args(least..)
}

fn repeated_argument<'a>(alloc: Global, form: &Argument) -> Arg<'a>
    ensures { result.value_parser ≡ None }
{
    named_argument(alloc, form)
        .action(ArgAction::Append)
        .num_args(1)
}

fn parsed_argument<'a>(alloc: Global, form: &Argument, parser: ValueParser<'a>) -> Arg<'a>
    ensures { parser_of result ≡ parser.entry }
{
    named_argument(alloc, form).value_parser(parser)
}

fn workers_argument<'a>(alloc: Global, form: &Argument, limit: u64) -> Arg<'a>
    ensures { parser_of result ≡ ValueParser.Unsigned 1 limit }
{
    parsed_argument(alloc, form, ValueParser::Unsigned(1, limit)).default_value("4")
}

fn width_argument<'a>(alloc: Global, form: &Argument, terminal: Option<&'a str>) -> Arg<'a>
    ensures { parser_of result ≡ ValueParser.Unsigned least_width width_limit }
{
    match terminal {
        Some(columns) => hidden_width(alloc, form).default_value(columns),
        None => hidden_width(alloc, form),
    }
}

fn hidden_width<'a>(alloc: Global, form: &Argument) -> Arg<'a>
    ensures { parser_of result ≡ ValueParser.Unsigned least_width width_limit }
{
    let parser = ValueParser::Unsigned(LEAST_WIDTH, WIDTH_LIMIT);
    parsed_argument(alloc, form, parser).hide_default_value(true)
}

fn named_argument<'a>(alloc: Global, form: &Argument) -> Arg<'a>
    ensures { result.value_parser ≡ None }
{
    bare_argument(alloc, form)
        .value_names(form.value_names)
        .help(form.help)
}

fn bare_argument<'a>(alloc: Global, form: &Argument) -> Arg<'a>
    ensures { result.value_parser ≡ None }
{
    match form.long {
        Some(long) => Arg::new(alloc, form.name).long(long),
        None => Arg::new(alloc, form.name),
    }
}

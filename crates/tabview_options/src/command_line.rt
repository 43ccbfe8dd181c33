//! The description of the command line.

use crate::table::{CHOOSING, Described, READING, SHOWING, Takes};
use clap::builder::ValueParser;
use clap::{Arg, ArgAction, Command};
use std::alloc::{AllocError, Global};

const ABOUT: &str = "\
Prints CSV, TSV, JSON or a query of SQLite as a table that fits the terminal.
For that, put this line into the start file of the shell, such as ~/.bashrc:

  alias tabview='tabview -w \"$COLUMNS\"'

Columns of numbers, dates and short codes keep their width; columns of text
give, and are wrapped between words. Control characters are shown as visible
signs.";

const EXAMPLES: &str = "\
Examples:
  tabview cities.csv                        the table, as wide as it comes
  tabview -w $COLUMNS cities.csv            as wide as the terminal, wrapped
  tabview -w 80 --cut cities.csv            at most 80 columns; cells end in …
  tabview --columns City,People cities.csv  two of the columns
  tabview --tail 10 -n cities.csv           the last ten rows, numbered
  tabview shop.db                           the tables of an SQLite file,
                                            or its only one
  tabview shop.db --table orders            one of its tables
  tabview shop.db -q 'SELECT * FROM t'      a query of it
  curl .. | tabview -f json -x              one row below the other
  tail -f log.jsonl | tabview -f jsonl --stream 20
                                            each row when it is read, as wide as
                                            the first 20

Exit status: 0, or 1 for an error in the input, or 2 for a wrong command line.";

/// Returns the description of the command line.
///
/// Errors: an allocation failed.
pub fn command<'a>(alloc: Global) -> Result<Command<'a>, AllocError> {
    let mut args = Vec::new(alloc);
    args.push(file(alloc))?;
    push_options(alloc, &READING, &mut args)?;
    push_options(alloc, &CHOOSING, &mut args)?;
    push_options(alloc, &SHOWING, &mut args)?;
    described(alloc).args(args)
}

fn described<'a>(alloc: Global) -> Command<'a> {
    Command::new(alloc, "tabview")
        .version("0.1.0")
        .about(ABOUT)
        .after_help(EXAMPLES)
}

/// Makes the argument without an option.
fn file<'a>(alloc: Global) -> Arg<'a> {
    Arg::new(alloc, "file")
        .value_name("FILE")
        .help("File to read; standard input without it, or for -")
}

fn push_options<'a>(
    alloc: Global,
    options: &[Described],
    args: &mut Vec<Arg<'a>>,
) -> Result<(), AllocError> {
    for option in options {
        push_option(alloc, option, args)?;
    }
    Ok(())
}

fn push_option<'a>(
    alloc: Global,
    option: &Described,
    args: &mut Vec<Arg<'a>>,
) -> Result<(), AllocError> {
    let arg = named(alloc, option).conflicts_with_all(option.excludes)?;
    args.push(arg)?;
    Ok(())
}

fn named<'a>(alloc: Global, option: &Described) -> Arg<'a> {
    let arg = Arg::new(alloc, option.name)
        .long(option.name)
        .help(option.help)
        .action(action(option.takes));
    taking(with_letter(arg, option.letter), option)
}

fn with_letter<'a>(arg: Arg<'a>, letter: Option<char>) -> Arg<'a> {
    match letter {
        Some(letter) => arg.short(letter),
        None => arg,
    }
}

/// Says what values an argument takes.
fn taking<'a>(arg: Arg<'a>, option: &Described) -> Arg<'a> {
    match option.takes {
        Takes::Nothing => arg,
        Takes::Text | Takes::Texts => arg.value_name(option.value),
        Takes::List => arg.value_name(option.value).value_delimiter(','),
        Takes::Number => arg.value_name(option.value).value_parser(NUMBER),
        Takes::Word(words) => arg
            .value_name(option.value)
            .value_parser(words)
            .hide_possible_values(true),
    }
}

const NUMBER: ValueParser<'static> = ValueParser::Unsigned(0, u64::MAX);

fn action(takes: Takes) -> ArgAction {
    match takes {
        Takes::Nothing => ArgAction::SetTrue,
        Takes::Texts | Takes::List => ArgAction::Append,
        Takes::Text | Takes::Number | Takes::Word(_) => ArgAction::Set,
    }
}

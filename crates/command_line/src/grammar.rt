// The commands of a program as plain data, for the parser of its command line, and what the parser finds in a line.

ghost use Rattle.std.specs.Prelude.{◌≡◌, ◌++◌, ◌∷◌, [], IfErr, IfOk, OnOk, map};
ghost use Rattle.clap.specs.Words.{app_of};
ghost use Rattle.command_line.specs.Args.{asks_help, is_help_word};
ghost use Rattle.command_line.specs.Grammar.{IsFound, IsHelpOrMemory, IsMatched, IsUnfound, IsUnmatched, app_of_grammar, arg_read, argument_placed, argument_read, command_read, subcommand_read};

use crate::args::LineFault;
use clap::builder::ValueParser;
use clap::{Arg, ArgMatches, Command};
use std::alloc::{AllocError, Global};
use std::convert::AsStr;

/// An argument of a command.
pub struct Argument {
    /// The name by which its value is asked for.
    pub id: &'static str,
    /// Its long name, of an option; empty of one that is given at its place, which must not be missing.
    pub long: &'static str,
    /// What help calls its value.
    pub value: &'static str,
    /// What help says of it.
    pub help: &'static str,
    /// The least and the most that it may be, of a number.
    pub range: Option<(i64, i64)>,
}

/// A command of a program.
pub struct Subcommand {
    /// Its name.
    pub name: &'static str,
    /// What help says of it.
    pub about: &'static str,
    /// Its arguments, in order.
    pub arguments: &'static [Argument],
}

/// What a program takes: one of its commands, with its arguments.
#[derive(Drop)]
pub struct Grammar {
    /// The name of the program.
    pub program: &'static str,
    /// Its commands, in the order in which help lists them.
    pub subcommands: &'static [Subcommand],
}

impl Grammar {
    /// The meaning of the words of a command line, of which the first is the program's own name. Where a line has
    /// `--help` it is asked for, whatever other fault the line has.
    pub fn read<'a>(&self, alloc: Global, words: &'a [String]) -> Result<ArgMatches<'a>, LineFault>
        ensures ok { IfOk result (IsMatched self.now words.now) }
        ensures err { IfErr result (IsUnmatched self.now words.now) }
    {
        if asks_for_help(words) {
            return Err(self.help_for(alloc, words));
        }
        self.matches_of(alloc, words)
    }

    // The help for the command that some words name, or for the program where they name none.
    fn help_for(&self, alloc: Global, words: &[String]) -> LineFault
        ensures { IsHelpOrMemory result }
    {
        match words.get(1) {
            Some(name) if self.has_subcommand(name.as_str()) => {
                self.help_on(alloc, self.program, name.as_str())
            }
            _ => self.help_of(alloc, &[self.program, "--help"]),
        }
    }

    // The help for a command of the program of this name.
    fn help_on<'b>(&self, alloc: Global, program: &'b str, subcommand: &'b str) -> LineFault
        ensures { IsHelpOrMemory result }
    {
        self.help_of(alloc, &[program, subcommand, "--help"])
    }

    // Whether a command has a name.
    fn has_subcommand(&self, name: &str) -> bool {
        self.subcommands
            .iter()
            .any(|subcommand| subcommand.name == name)
    }

    // What the parser prints for a line that asks for help, as help. (It finds no work in such a line.)
    fn help_of(&self, alloc: Global, words: &[&str]) -> LineFault
        ensures { IsHelpOrMemory result }
    {
        match self.matches_of(alloc, words) {
            Ok(_) => LineFault::Help(String::new(alloc)),
            Err(LineFault::Help(text) | LineFault::Usage(text)) => LineFault::Help(text),
            Err(LineFault::Memory) => LineFault::Memory,
        }
    }

    // What the parser finds in a line.
    fn matches_of<'a, S: AsStr>(
        &self,
        alloc: Global,
        words: &'a [S],
    ) -> Result<ArgMatches<'a>, LineFault>
        ensures ok { IfOk result (IsFound (app_of_grammar self.now) (map S.text words.now)) }
        ensures err { IfErr result (IsUnfound (app_of_grammar self.now) (map S.text words.now)) }
    {
        match self.command(alloc)?.try_get_matches_from(words) {
            Ok(matches) => Ok(matches),
            Err(error) => Err(LineFault::of(alloc, &error)),
        }
    }

    // The program as the parser has it.
    fn command<'a>(&self, alloc: Global) -> Result<Command<'a>, AllocError>
        ensures { IfOk result (λ command. app_of command ≡ app_of_grammar self.now) }
    {
        self.parser(alloc)?.bin_name(self.program)
    }

    // The same, before it has a name in what it prints.
    fn parser<'a>(&self, alloc: Global) -> Result<Command<'a>, AllocError>
        ensures { IfOk result (λ command. app_of command ≡ app_of_grammar self.now) }
    {
        let commands = commands(alloc, self.subcommands)?;
        Command::new(alloc, self.program)
            .subcommand_required(true)
            .subcommands(commands)
    }
}

// Whether `--help` stands among some words, before the word that ends the options.
fn asks_for_help(words: &[String]) -> bool
    ensures { result ≡ asks_help words.now }
{
    words
        .iter()
        .skip(1)
        .take_while(|word| word.as_str() != "--")
        .any(|word| is_help(word.as_str()))
}

// Whether a word asks for help.
fn is_help(word: &str) -> bool
    ensures { result ≡ is_help_word word.now }
{
    word == "--help" || word == "-h"
}

// These commands as the parser has them.
fn commands<'a>(alloc: Global, subcommands: &[Subcommand]) -> Result<Vec<Command<'a>>, AllocError>
    ensures { IfOk result (λ commands. map command_read commands.items
        ≡ map subcommand_read subcommands.now) }
{
    let mut commands = Vec::new(alloc);
    for subcommand in subcommands {
        add_command(alloc, subcommand, &mut commands)?;
    }
    Ok(commands)
}

// One command more.
fn add_command<'a>(
    alloc: Global,
    subcommand: &Subcommand,
    commands: &mut Vec<Command<'a>>,
) -> Result<(), AllocError>
    ensures { OnOk result (map command_read commands.new.items
        ≡ map command_read commands.old.items ++ subcommand_read subcommand.now ∷ []) }
{
    let command = command_of(alloc, subcommand)?;
    commands.push(command)?;
    Ok(())
}

// A command as the parser has it.
fn command_of<'a>(alloc: Global, subcommand: &Subcommand) -> Result<Command<'a>, AllocError>
    ensures { IfOk result (λ command. command_read command ≡ subcommand_read subcommand.now) }
{
    let args = arguments(alloc, subcommand.arguments)?;
    Command::new(alloc, subcommand.name)
        .about(subcommand.about)
        .args(args)
}

// These arguments as the parser has them.
fn arguments<'a>(alloc: Global, arguments: &[Argument]) -> Result<Vec<Arg<'a>>, AllocError>
    ensures { IfOk result (λ args. map arg_read args.items ≡ map argument_read arguments.now) }
{
    let mut args = Vec::new(alloc);
    for argument in arguments {
        add_argument(alloc, argument, &mut args)?;
    }
    Ok(args)
}

// One argument more.
fn add_argument<'a>(
    alloc: Global,
    argument: &Argument,
    args: &mut Vec<Arg<'a>>,
) -> Result<(), AllocError>
    ensures { OnOk result (map arg_read args.new.items
        ≡ map arg_read args.old.items ++ argument_read argument.now ∷ []) }
{
    args.push(argument_of(alloc, argument))?;
    Ok(())
}

// An argument as the parser has it, whose value is a number where it has a range.
fn argument_of<'a>(alloc: Global, argument: &Argument) -> Arg<'a>
    ensures { arg_read result ≡ argument_read argument.now }
{
    let arg = placed(alloc, argument);
    match argument.range {
        Some((least, most)) => arg.value_parser(ValueParser::Signed(least, most)),
        None => arg,
    }
}

// The same, whatever its value. One without a long name has to be given.
fn placed<'a>(alloc: Global, argument: &Argument) -> Arg<'a>
    ensures { arg_read result ≡ argument_placed argument.now }
{
    let arg = Arg::new(alloc, argument.id)
        .value_name(argument.value)
        .help(argument.help);
    if argument.long.is_empty() {
        arg.required(true)
    } else {
        arg.long(argument.long)
    }
}

//! The command line: its commands with their arguments, and their help.

use clap::builder::ValueParser;
use clap::{Arg, ArgAction, Command};
use std::alloc::{AllocError, Global};

/// How an argument is written.
#[derive(Clone, Copy)]
enum Form {
    /// `<NAME>`: a word that has to be there.
    Word,
    /// `[NAME]`: a word that may be left out.
    OptionalWord,
    /// `[NAME]...`: any number of words.
    Words,
    /// `-n, --name`: an option without a value.
    Flag(char),
    /// The same, which may not stand beside the argument of a name.
    FlagWithout(char, &'static str),
    /// `-n, --name <VALUE>`: an option with a value.
    Value(char, &'static str),
    /// `-n, --name <VALUE>`, any number of times.
    Values(char, &'static str),
    /// `-n, --name <VALUE>`: an option whose value is such a number, and this one if it isn't given.
    Number(char, &'static str, ValueParser<'static>, &'static str),
}

impl Form {
    /// Returns what a use of the argument does.
    fn action(self) -> ArgAction {
        match self {
            Form::Words | Form::Values(_, _) => ArgAction::Append,
            Form::Flag(_) | Form::FlagWithout(_, _) => ArgAction::SetTrue,
            _ => ArgAction::Set,
        }
    }

    /// Returns whether the argument has to be there.
    fn is_required(self) -> bool {
        match self {
            Form::Word => true,
            _ => false,
        }
    }

    /// Returns the letter of an option.
    fn letter(self) -> Option<char> {
        match self {
            Form::Flag(letter)
            | Form::FlagWithout(letter, _)
            | Form::Value(letter, _)
            | Form::Values(letter, _)
            | Form::Number(letter, _, _, _) => Some(letter),
            _ => None,
        }
    }

    /// Returns what help calls the value of an argument of this name, if it has one.
    fn value_name(self, name: &'static str) -> Option<&'static str> {
        match self {
            Form::Word | Form::OptionalWord | Form::Words => Some(name),
            Form::Value(_, value) | Form::Values(_, value) | Form::Number(_, value, _, _) => {
                Some(value)
            }
            _ => None,
        }
    }
}

/// An argument of a command: how it is written, its name, and its line of help.
#[derive(Clone, Copy)]
struct ArgumentRow(Form, &'static str, &'static str);

/// A command: its name, its line of help, and its arguments.
#[derive(Clone, Copy)]
struct CommandRow(&'static str, &'static str, &'static [ArgumentRow]);

/// Adds the letter and the long name of an option.
fn add_letter<'a>(arg: Arg<'a>, form: Form, name: &'static str) -> Arg<'a> {
    match form.letter() {
        Some(letter) => arg.short(letter).long(name),
        None => arg,
    }
}

/// Adds what help calls the value of an argument that has one.
fn add_value_name<'a>(arg: Arg<'a>, form: Form, name: &'static str) -> Arg<'a> {
    match form.value_name(name) {
        Some(value) => arg.value_name(value),
        None => arg,
    }
}

/// Adds what else holds of an argument of this form.
fn add_rule<'a>(arg: Arg<'a>, form: Form) -> Result<Arg<'a>, AllocError> {
    match form {
        Form::Words => Ok(arg.num_args(1..)),
        Form::FlagWithout(_, other) => arg.conflicts_with(other),
        Form::Number(_, _, parser, default) => Ok(arg.value_parser(parser).default_value(default)),
        _ => Ok(arg),
    }
}

/// Makes an argument.
fn make_argument<'a>(alloc: Global, row: &ArgumentRow) -> Result<Arg<'a>, AllocError> {
    let ArgumentRow(form, name, help) = *row;
    let arg = Arg::new(alloc, name).help(help);
    let arg = arg.action(form.action()).required(form.is_required());
    add_rule(
        add_value_name(add_letter(arg, form, name), form, name),
        form,
    )
}

/// Makes a command with its arguments.
fn make_command<'a>(alloc: Global, row: &CommandRow) -> Result<Command<'a>, AllocError> {
    let CommandRow(name, about, arguments) = *row;
    let mut command = Command::new(alloc, name).about(about);
    for argument in arguments {
        command = command.arg(make_argument(alloc, argument)?)?;
    }
    Ok(command)
}

/// Adds commands to a program, or to another command.
fn add_commands<'a>(
    alloc: Global,
    program: Command<'a>,
    rows: &[CommandRow],
) -> Result<Command<'a>, AllocError> {
    let mut program = program;
    for row in rows {
        program = program.subcommand(make_command(alloc, row)?)?;
    }
    Ok(program)
}

/// Lets a call name one of a command's own commands, and shows help if it names none.
fn require_command<'a>(command: Command<'a>) -> Command<'a> {
    command
        .subcommand_required(true)
        .arg_required_else_help(true)
}

/// Makes `cache` with its commands.
fn make_cache<'a>(alloc: Global) -> Result<Command<'a>, AllocError> {
    let cache = require_command(make_command(alloc, &CACHE)?);
    add_commands(alloc, cache, CACHE_COMMANDS)
}

/// Makes `texts`, whose usage begins with no file.
fn make_texts<'a>(alloc: Global) -> Result<Command<'a>, AllocError> {
    Ok(make_command(alloc, &TEXTS)?.override_usage("blobctl texts FILE"))
}

/// Makes the program without its commands.
fn make_program<'a>(alloc: Global) -> Result<Command<'a>, AllocError> {
    let program = make_command(alloc, &PROGRAM)?.bin_name("blobctl FILE")?;
    let program = program.override_usage(USAGE).after_help(AFTER);
    Ok(require_command(program.version(VERSION).no_binary_name(true)))
}

/// Makes the whole command line.
///
/// # Errors
///
/// - if memory is refused.
pub fn command_line<'a>(alloc: Global) -> Result<Command<'a>, AllocError> {
    let program = add_commands(alloc, make_program(alloc)?, COMMANDS)?;
    let program = program.subcommand(make_cache(alloc)?)?;
    let program = program.subcommand(make_command(alloc, &SERVE)?)?;
    program.subcommand(make_texts(alloc)?)
}

/// The version of the crate that this is a port of, whose keys the file has.
const VERSION: &str = "0.4.2";

const USAGE: &str =
    "blobctl FILE COMMAND\n       blobctl texts FILE\n       blobctl help [COMMAND]";

const AFTER: &str = "FILE is a path; ./FILE if it begins with `-` or is called `texts` or `help`.\n\
    The status is 0, or 1 for a flaw, a difference or what isn't there, 2 for a wrong\n\
    call, 3 if the file fails.";

/// The option for an answer in JSON.
const JSON: ArgumentRow = ArgumentRow(Form::Flag('j'), "json", "Answer a document in JSON");

/// The root or key of a command that shows what it reaches.
const ROOT: ArgumentRow = ArgumentRow(
    Form::Word,
    "ROOT",
    "A root, as main or main~1, a key or its first digits",
);

/// The digest that names an entry of a cache.
const DIGEST: ArgumentRow = ArgumentRow(Form::Word, "DIGEST", "1 to 128 hex digits");

/// The option for how long a command waits for other writers.
const WAIT: ArgumentRow = ArgumentRow(
    Form::Number('w', "SECONDS", ValueParser::Unsigned(0, u64::MAX), "10"),
    "wait",
    "Wait so long at most for other writers",
);

/// The commands on a file, but for `cache` and `serve`.
const COMMANDS: &[CommandRow] = &[
    CommandRow(
        "ls",
        "List the roots, all blobs, or the children of ROOT's blob",
        &[
            ArgumentRow(
                Form::OptionalWord,
                "ROOT",
                "A root, as main or main~1, a key or its first digits",
            ),
            ArgumentRow(Form::FlagWithout('a', "ROOT"), "all", "List all blobs"),
            JSON,
        ],
    ),
    CommandRow(
        "log",
        "List the versions of a root, the last first",
        &[ArgumentRow(Form::Word, "ROOT", "The root's name"), JSON],
    ),
    CommandRow(
        "diff",
        "List the blobs that one root reaches and the other doesn't",
        &[
            ArgumentRow(
                Form::Word,
                "FIRST",
                "A root, as main~1, a key or its first digits, whose own blobs are marked -",
            ),
            ArgumentRow(
                Form::Word,
                "SECOND",
                "The root to compare with, whose own blobs are marked +",
            ),
            ArgumentRow(
                Form::Flag('e'),
                "exact",
                "Leave out what the other root reaches through shared blobs, too",
            ),
            JSON,
        ],
    ),
    CommandRow(
        "cat",
        "Write the bytes of a blob",
        &[ArgumentRow(
            Form::Word,
            "KEY",
            "A key, its first digits, or a root, as main or main~1",
        )],
    ),
    CommandRow(
        "tree",
        "Show what a root reaches, below each blob its children",
        &[ROOT],
    ),
    CommandRow(
        "dot",
        "Show what a root reaches as a graph for Graphviz",
        &[ROOT],
    ),
    CommandRow(
        "stat",
        "Count the blobs, their bytes and the roots",
        &[JSON],
    ),
    CommandRow(
        "fsck",
        "Test each blob, and name each flaw",
        &[ArgumentRow(
            Form::OptionalWord,
            "NAME",
            "Test only what the root of this name reaches",
        )],
    ),
    CommandRow(
        "copy",
        "Copy what the roots reach into another file",
        &[
            ArgumentRow(
                Form::Word,
                "OTHER",
                "The path of the other file, which may be new",
            ),
            ArgumentRow(Form::Words, "ROOT", "Copy these roots alone"),
        ],
    ),
    CommandRow(
        "export-db",
        "Write all blobs and roots as a database for SQLite",
        &[ArgumentRow(Form::Word, "DB", "The path of the new database")],
    ),
    CommandRow(
        "put",
        "Store a blob, and print its key",
        &[
            ArgumentRow(
                Form::OptionalWord,
                "PATH",
                "The file of its bytes, or - for standard input",
            ),
            ArgumentRow(
                Form::Values('c', "KEY"),
                "child",
                "A child: a key, its first digits, or a root",
            ),
        ],
    ),
    CommandRow(
        "root",
        "Point a root at a blob",
        &[
            ArgumentRow(Form::Word, "NAME", "The name"),
            ArgumentRow(
                Form::Word,
                "KEY",
                "A key, its first digits, or a root, as main or main~1",
            ),
        ],
    ),
    CommandRow(
        "drop",
        "Remove a root (its versions stay until a gc)",
        &[ArgumentRow(Form::Word, "NAME", "The name")],
    ),
    CommandRow(
        "gc",
        "Drop the blobs and versions that no root keeps",
        &[ArgumentRow(
            Form::Number('k', "N", ValueParser::Unsigned(1, u64::MAX), "1"),
            "keep",
            "Keep the last N versions of each root",
        )],
    ),
    CommandRow(
        "import-old",
        "Make FILE of a database of blobs and roots",
        &[ArgumentRow(Form::Word, "OLD", "The path of the database")],
    ),
];

/// The commands of `cache`.
const CACHE_COMMANDS: &[CommandRow] = &[
    CommandRow(
        "get",
        "Write what was put under a digest",
        &[
            DIGEST,
            ArgumentRow(
                Form::Value('o', "PATH"),
                "output",
                "Write it to this file, which is replaced, or into a pipe",
            ),
        ],
    ),
    CommandRow(
        "put",
        "Put a file under a digest, in place of what is there",
        &[
            DIGEST,
            ArgumentRow(Form::Word, "PATH", "The file, or - for standard input"),
            ArgumentRow(
                Form::Number('s', "N", ValueParser::Signed(0, 4_294_967_295), "0"),
                "status",
                "Keep this status with it",
            ),
            WAIT,
        ],
    ),
    CommandRow(
        "stat",
        "Count the entries and the bytes of their contents",
        &[JSON],
    ),
    CommandRow(
        "trim",
        "Drop the entries that were put first, and then run a gc",
        &[
            ArgumentRow(
                Form::Word,
                "SIZE",
                "How many bytes may stay, as 4096, 100K, 50M or 2G",
            ),
            WAIT,
        ],
    ),
];

const CACHE: CommandRow = CommandRow("cache", "Keep what commands wrote under digests", &[]);

const SERVE: CommandRow = CommandRow(
    "serve",
    "Answer lines of the input, and commit at `flush`",
    &[],
);

const TEXTS: CommandRow = CommandRow(
    "texts",
    "Answer lines about texts that FILE keeps",
    &[ArgumentRow(Form::Word, "FILE", "The file of blobs, which may be new")],
);

const PROGRAM: CommandRow = CommandRow(
    "blobctl",
    "Shows and changes a file of blobs with named roots",
    &[],
);

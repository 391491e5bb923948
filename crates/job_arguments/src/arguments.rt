//! Reads the arguments of a command line.
ghost use Rattle.std.specs.Prelude.{◌≡◌, ◌↔◌, ◌^◌, ◌-◌, ◌++◌, ℕ, IfErr, IfOk, IfSome, None};
ghost use Rattle.std.specs.Prelude.{IsTrue, codes, map, string_bytes};
ghost use Rattle.clap.specs.Words.{found_of, kind_of, rows_of, subcommand_rows_of};
ghost use Rattle.job_arguments.specs.Arguments.{AskForDialect, AskForLimits, AskForOutput};
ghost use Rattle.job_arguments.specs.Arguments.{AskForLabel, Asks, AsksNoJob, HasWrongLabel};
ghost use Rattle.job_arguments.specs.Arguments.{IsLabel, reads_stream, subcommand_name};
ghost use Rattle.job_arguments.specs.Arguments.{IsFound, IsHint, IsInvocationOf, IsJobOf, IsNamed};
ghost use Rattle.job_arguments.specs.Arguments.{hint};
ghost use Rattle.job_arguments.specs.Arguments.{HasCount, HasFlag, HasGoodSize, HasNumber};
ghost use Rattle.job_arguments.specs.Arguments.{HasText, IsDelimiter};
ghost use Rattle.job_arguments.specs.Arguments.{HasWrongDialect, HasWrongLimit, HasWrongOutput};
ghost use Rattle.job_arguments.specs.Arguments.{HasWrongValue};
ghost use Rattle.job_arguments.specs.Arguments.{IsUsageOf, IsWrong, IsWrongFor, IsWrongFound};
ghost use Rattle.job_arguments.specs.Arguments.{LacksCount, LacksNumber};

use crate::command_line::command;
use crate::csv_dialect::CsvDialect;
use clap::error::ErrorKind;
use clap::{ArgMatches, Command, Error};
use ipc_model::{
    Limits, MAX_BODY, MAX_DEPTH, MAX_FIELDS, MAX_METADATA, MAX_PAIRS, MAX_SLOTS, MAX_TEXT,
};
use std::alloc::{AllocError, Global};

/// The limits of a stream that is written. Each is `None` if the words have no such option.
#[derive(Clone, Copy, Debug, Drop)]
pub struct OutputLimits {
    /// The maximum number of bytes of a message's body, at most 2^42.
    pub body: Option<u64>,
    /// The maximum number of batches.
    pub batches: Option<u64>,
    /// The maximum number of rows of all batches together.
    pub rows: Option<u64>,
    /// The maximum number of bytes of the whole stream.
    pub bytes: Option<u64>,
}

/// What to do, and the limits of a stream that is read.
#[derive(Debug, Drop)]
pub enum Job {
    /// Print the schema of a stream as a line of JSON, and read no more.
    Schema(Limits),
    /// Read a stream, and print its schema and its numbers of bytes, batches and rows.
    Check {
        /// The limits of the stream.
        limits: Limits,
        /// Whether the end-of-stream mark is required.
        require_mark: bool,
    },
    /// Print each row of a stream as JSON on a line of its own.
    Show {
        /// The limits of the stream.
        limits: Limits,
        /// Whether each row is an object with the columns' names as keys, not an array.
        objects: bool,
        /// Whether to print a line with its pairs before the rows of each batch.
        pairs: bool,
        /// The number of rows to print at most, or `None` for all of them.
        limit: Option<u64>,
        /// Whether the end-of-stream mark is required.
        require_mark: bool,
    },
    /// Print a stream as CSV.
    ToCsv {
        /// The limits of the stream.
        limits: Limits,
        /// The dialect of CSV.
        dialect: CsvDialect,
        /// The number of rows to print at most, or `None` for all of them.
        limit: Option<u64>,
        /// Whether the end-of-stream mark is required.
        require_mark: bool,
    },
    /// Rewrite a stream in canonical layout, with its schema, batches and rows.
    Rewrite {
        /// The limits of the stream.
        limits: Limits,
        /// The limits of what is written.
        output: OutputLimits,
        /// Whether the end-of-stream mark is required.
        require_mark: bool,
    },
    /// Write CSV records as a stream.
    FromCsv {
        /// The path of a file with the schema as JSON.
        schema: String,
        /// The number of rows of a batch; the last batch may have fewer.
        batch: u64,
        /// The maximum number of bytes of a message's body, at most 2^42. If it is given, a batch
        /// with which they would be exceeded has fewer rows.
        batch_bytes: Option<u64>,
        /// The dialect of CSV.
        dialect: CsvDialect,
        /// Whether only the strict form of CSV is read.
        strict: bool,
    },
}

impl Job {
    /// Returns the name of the job's subcommand.
    pub fn subcommand(&self) -> &'static str
        ensures { result.now ≡ subcommand_name self.now }
    {
        match self {
            Job::Schema(_) | Job::Check { .. } => "check",
            Job::Show { .. } => "show",
            Job::ToCsv { .. } => "to-csv",
            Job::Rewrite { .. } => "rewrite",
            Job::FromCsv { .. } => "from-csv",
        }
    }

    /// Returns whether the job reads a stream.
    pub fn reads_stream(&self) -> bool
        ensures { result ≡ reads_stream self.now }
    {
        !matches!(self, Job::FromCsv { .. })
    }
}

/// What a command line asks for.
#[derive(Debug, Drop)]
pub struct Invocation {
    /// What to do.
    pub job: Job,
    /// Whether to explain a refusal, on lines after its own.
    pub explain: bool,
    /// Whether to report after each batch how far a stream is read.
    pub progress: bool,
    /// Whether nothing may follow a stream that is read to its end.
    pub require_eof: bool,
    /// The maximum number of bytes that are held of a stream that is read, or `None` for any
    /// number: those that came of the current message, and the bodies of the dictionaries in force.
    pub max_held: Option<u64>,
    /// The path of a file with the schema, as JSON, that a stream must have, or `None` for any
    /// schema.
    pub expect: Option<String>,
    /// The text before each line of messages: a name with a colon and a space, or the empty text.
    pub label: String,
    /// Whether to print a summary as a line of JSON at the end.
    pub summary: bool,
}

/// Why a command line contains no job.
#[derive(Debug, Drop)]
pub enum Usage {
    /// The arguments ask for help or the version: this text, for standard output.
    Help(String),
    /// The arguments are invalid: why, and the usage, for standard error.
    Wrong(String),
    /// Memory ran out.
    OutOfMemory,
}

impl From<AllocError> for Usage {
    ghost use Rattle.std.specs.Prelude.{◌≡◌};
    ghost use Rattle.job_arguments.specs.declared.arguments.Usage.TheVariants.{OutOfMemory};

    ghost from_gives = { λ _ why. why ≡ OutOfMemory };

    fn from(_: AllocError) -> Usage {
        Usage::OutOfMemory
    }
}

// The beginning of the message for an unexpected option.
const OPTION: &[u8] = b"error: unexpected argument '-";

// The beginning of the end of the message for any other unexpected word.
const HINT: &str = "\nInput is read from standard input: arrowstream ";

// The message for a dialect of CSV in which a value could be taken for null, or a field from
// two.
const DELIMITER: &str = "\
error: --delimiter takes one ASCII character, or \\t for a tab
";

const DIALECT: &str = "\
error: with this --delimiter and --null, a value could be taken for null or for two fields
--delimiter must not be a letter, a digit, '-', '.', ':', '\"' or an end of a line.
--null must not contain the delimiter, '\"' or an end of a line.
--null must not begin with a digit, or with '-' and a digit.
--null must not be true, false or pairs of hexadecimal digits.
";

// The message for a name that may not precede lines.
const LABEL: &str = "\
error: --label takes a text that is not empty and has no control characters
";

// The subcommand that the second word names, or `check` if it names none.
fn subcommand_named(words: &[String]) -> &str
    ensures { IsNamed (map string_bytes words.now) result.now }
{
    let Some(word) = words.get(1) else {
        return "check";
    };
    match word.as_str() {
        "check" => "check",
        "show" => "show",
        "to-csv" => "to-csv",
        "from-csv" => "from-csv",
        "rewrite" => "rewrite",
        _ => "check",
    }
}

// A message with how the subcommand of this name reads a file at its end.
fn with_hint(text: String, name: &str) -> Result<String, AllocError>
    ensures { IfOk result (λ whole. string_bytes whole ≡ string_bytes text ++ hint name.now) }
{
    let mut text = text;
    text.push_str(HINT)?;
    text.push_str(name)?;
    text.push_str(" < FILE\n")?;
    Ok(text)
}

// The message for an unexpected word. If the word is no option, it ends with how a file is read.
fn unexpected_word(words: &[String], text: String) -> Usage
    ensures { IsHint (map string_bytes words.now) result }
{
    if text.as_bytes().starts_with(OPTION) {
        return Usage::Wrong(text);
    }
    match with_hint(text, subcommand_named(words)) {
        Ok(text) => Usage::Wrong(text),
        Err(_) => Usage::OutOfMemory,
    }
}

// The message for a refused command line.
fn usage_of(alloc: Global, words: &[String], error: &Error) -> Usage
    ensures { IsUsageOf (map string_bytes words.now) (kind_of error.now) result }
{
    let Ok(text) = format!(in alloc; "{error}") else {
        return Usage::OutOfMemory;
    };
    match error.kind() {
        ErrorKind::DisplayHelp | ErrorKind::DisplayVersion => Usage::Help(text),
        ErrorKind::OutOfMemory => Usage::OutOfMemory,
        ErrorKind::UnknownArgument | ErrorKind::InvalidSubcommand => unexpected_word(words, text),
        _ => Usage::Wrong(text),
    }
}

// A command line that the program does not accept, and why.
fn wrong(alloc: Global, why: &str) -> Usage
    ensures { IsWrong result }
{
    match String::from_str(alloc, why) {
        Ok(text) => Usage::Wrong(text),
        Err(_) => Usage::OutOfMemory,
    }
}

// The number of an option, if it is one from a least to a greatest one.
fn number_option(options: &ArgMatches<'_>, name: &str, least: u64, greatest: u64) -> Option<u64>
    ensures some { IfSome result
        (HasNumber name.now least greatest (rows_of (found_of options.now))) }
    ensures none { result ≡ None
        → LacksNumber name.now least greatest (rows_of (found_of options.now)) }
{
    let number = options.get_one::<u64>(name)?;
    if least <= number && number <= greatest {
        Some(number)
    } else {
        None
    }
}

// Whether a flag is given.
fn has_flag(options: &ArgMatches<'_>, name: &str) -> bool
    ensures { HasFlag name.now (rows_of (found_of options.now)) result }
{
    options.get_one::<bool>(name).unwrap_or(false)
}

// The limits that a subcommand's options ask for. None where a limit is out of its range.
fn limits_of(options: &ArgMatches<'_>) -> Option<Limits>
    ensures some { IfSome result (AskForLimits (rows_of (found_of options.now))) }
    ensures none { result ≡ None → HasWrongLimit (rows_of (found_of options.now)) }
{
    let metadata = number_option(options, "max-metadata", 0, MAX_METADATA)?;
    let body = number_option(options, "max-body", 0, MAX_BODY)?;
    let rows = number_option(options, "max-rows", 0, MAX_SLOTS)?;
    let fields = number_option(options, "max-fields", 0, MAX_FIELDS)?;
    let depth = number_option(options, "max-depth", 0, MAX_DEPTH)?;
    let text = number_option(options, "max-text", 0, MAX_TEXT)?;
    let pairs = number_option(options, "max-pairs", 0, MAX_PAIRS)?;
    Limits::new(metadata, body, rows, fields, depth, text, pairs)
}

// The limits that a subcommand's options ask for.
fn read_limits(alloc: Global, options: &ArgMatches<'_>) -> Result<Limits, Usage>
    ensures asked { IfOk result (AskForLimits (rows_of (found_of options.now))) }
    ensures refused { IfErr result (IsWrongFor (HasWrongLimit (rows_of (found_of options.now)))) }
{
    match limits_of(options) {
        Some(limits) => Ok(limits),
        None => Err(wrong(alloc, "error: a limit is above its greatest value\n")),
    }
}

// The number of an option, from 0 to a greatest one, if the words have the option.
fn read_count(
    alloc: Global,
    options: &ArgMatches<'_>,
    name: &str,
    greatest: u64,
) -> Result<Option<u64>, Usage>
    ensures asked { IfOk result (HasCount name.now 0 greatest (rows_of (found_of options.now))) }
    ensures refused { IfErr result
        (IsWrongFor (LacksCount name.now 0 greatest (rows_of (found_of options.now)))) }
{
    let Some(_text) = options.get_str(name) else {
        return Ok(None);
    };
    match number_option(options, name, 0, greatest) {
        Some(count) => Ok(Some(count)),
        None => Err(wrong(alloc, "error: a number is above its greatest value\n")),
    }
}

// The text of an option, if the words have the option.
fn read_text(
    alloc: Global,
    options: &ArgMatches<'_>,
    name: &str,
) -> Result<Option<String>, AllocError>
    ensures asked { IfOk result (HasText name.now (rows_of (found_of options.now))) }
{
    match options.get_str(name) {
        Some(text) => Ok(Some(String::from_str(alloc, text)?)),
        None => Ok(None),
    }
}

// Whether a name may precede lines.
fn is_label(name: &str) -> bool
    ensures { IsTrue result ↔ IsLabel name.now }
{
    !name.is_empty() && !name.chars().any(|c| c.is_control())
}

// The text before each line of messages that the options ask for.
fn read_label(alloc: Global, options: &ArgMatches<'_>) -> Result<String, Usage>
    ensures asked { IfOk result (AskForLabel (rows_of (found_of options.now))) }
    ensures refused { IfErr result (IsWrongFor (HasWrongLabel (rows_of (found_of options.now)))) }
{
    let Some(name) = options.get_str("label") else {
        return Ok(String::new(alloc));
    };
    if !is_label(name) {
        return Err(wrong(alloc, LABEL));
    }
    let mut label = String::from_str(alloc, name)?;
    label.push_str(": ")?;
    Ok(label)
}

// The limits of what is written that the options ask for.
fn read_output(alloc: Global, options: &ArgMatches<'_>) -> Result<OutputLimits, Usage>
    ensures asked { IfOk result (AskForOutput (rows_of (found_of options.now))) }
    ensures refused { IfErr result (IsWrongFor (HasWrongOutput (rows_of (found_of options.now)))) }
{
    Ok(OutputLimits {
        body: read_count(alloc, options, "max-output-body", MAX_BODY)?,
        batches: read_count(alloc, options, "max-batches", u64::MAX)?,
        rows: read_count(alloc, options, "max-total-rows", u64::MAX)?,
        bytes: read_count(alloc, options, "max-total-bytes", u64::MAX)?,
    })
}

// The delimiter that a text names: its only byte, or a tab for a backslash and a `t`.
fn delimiter_of(text: &str) -> Option<u8>
    ensures some { IfSome result (IsDelimiter text.now) }
    ensures none { result ≡ None → (byte : ℕ) → IsDelimiter text.now byte → ⊥ }
{
    match text.as_bytes() {
        [byte] => Some(*byte),
        [b'\\', b't'] => Some(b'\t'),
        _ => None,
    }
}

// The dialect of CSV that the words ask for.
fn read_dialect(alloc: Global, options: &ArgMatches<'_>) -> Result<CsvDialect, Usage>
    ensures asked { IfOk result (AskForDialect (rows_of (found_of options.now))) }
    ensures refused { IfErr result
        (IsWrongFor (HasWrongDialect (rows_of (found_of options.now)))) }
{
    let Some(delimiter) = options.get_str("delimiter") else {
        return Err(wrong(alloc, "error: no delimiter\n"));
    };
    let Some(null) = options.get_str("null") else {
        return Err(wrong(alloc, "error: --null has no value\n"));
    };
    let Some(byte) = delimiter_of(delimiter) else {
        return Err(wrong(alloc, DELIMITER));
    };
    let null = String::from_str(alloc, null)?;
    match CsvDialect::new(byte, null) {
        Some(dialect) => Ok(dialect),
        None => Err(wrong(alloc, DIALECT)),
    }
}

// The job of `show` that is given these options.
fn read_show(alloc: Global, options: &ArgMatches<'_>) -> Result<Job, Usage>
    ensures asked { IfOk result (IsJobOf (codes "show") (rows_of (found_of options.now))) }
    ensures refused { IfErr result
        (IsWrongFor (HasWrongValue (codes "show") (rows_of (found_of options.now)))) }
    ensures size { IfOk result HasGoodSize }
{
    Ok(Job::Show {
        limits: read_limits(alloc, options)?,
        objects: has_flag(options, "objects"),
        pairs: has_flag(options, "pairs"),
        limit: read_count(alloc, options, "limit", u64::MAX)?,
        require_mark: has_flag(options, "require-mark"),
    })
}

// The job of `to-csv` that is given these options.
fn read_to_csv(alloc: Global, options: &ArgMatches<'_>) -> Result<Job, Usage>
    ensures asked { IfOk result (IsJobOf (codes "to-csv") (rows_of (found_of options.now))) }
    ensures refused { IfErr result
        (IsWrongFor (HasWrongValue (codes "to-csv") (rows_of (found_of options.now)))) }
    ensures size { IfOk result HasGoodSize }
{
    Ok(Job::ToCsv {
        limits: read_limits(alloc, options)?,
        dialect: read_dialect(alloc, options)?,
        limit: read_count(alloc, options, "limit", u64::MAX)?,
        require_mark: has_flag(options, "require-mark"),
    })
}

// The job of `from-csv` that is given these options.
fn read_from_csv(alloc: Global, options: &ArgMatches<'_>) -> Result<Job, Usage>
    ensures asked { IfOk result (IsJobOf (codes "from-csv") (rows_of (found_of options.now))) }
    ensures refused { IfErr result
        (IsWrongFor (HasWrongValue (codes "from-csv") (rows_of (found_of options.now)))) }
    ensures size { IfOk result HasGoodSize }
{
    let Some(path) = options.get_str("schema") else {
        return Err(wrong(alloc, "error: no schema\n"));
    };
    let Some(batch) = number_option(options, "batch", 1, MAX_SLOTS) else {
        return Err(wrong(alloc, "error: --batch is from 1 to 2147483647\n"));
    };
    Ok(Job::FromCsv {
        schema: String::from_str(alloc, path)?,
        batch,
        batch_bytes: read_count(alloc, options, "batch-bytes", MAX_BODY)?,
        dialect: read_dialect(alloc, options)?,
        strict: has_flag(options, "strict"),
    })
}

// The job of `check` that is given these options.
fn read_check(alloc: Global, options: &ArgMatches<'_>) -> Result<Job, Usage>
    ensures asked { IfOk result (IsJobOf (codes "check") (rows_of (found_of options.now))) }
    ensures refused { IfErr result
        (IsWrongFor (HasWrongValue (codes "check") (rows_of (found_of options.now)))) }
    ensures size { IfOk result HasGoodSize }
{
    let limits = read_limits(alloc, options)?;
    if has_flag(options, "schema") {
        return Ok(Job::Schema(limits));
    }
    Ok(Job::Check {
        limits,
        require_mark: has_flag(options, "require-mark"),
    })
}

// The job of `rewrite` that is given these options.
fn read_rewrite(alloc: Global, options: &ArgMatches<'_>) -> Result<Job, Usage>
    ensures asked { IfOk result (IsJobOf (codes "rewrite") (rows_of (found_of options.now))) }
    ensures refused { IfErr result
        (IsWrongFor (HasWrongValue (codes "rewrite") (rows_of (found_of options.now)))) }
    ensures size { IfOk result HasGoodSize }
{
    Ok(Job::Rewrite {
        limits: read_limits(alloc, options)?,
        output: read_output(alloc, options)?,
        require_mark: has_flag(options, "require-mark"),
    })
}

// The job of a subcommand that is given these options.
fn read_job(alloc: Global, name: &str, options: &ArgMatches<'_>) -> Result<Job, Usage>
    ensures asked { IfOk result (IsJobOf name.now (rows_of (found_of options.now))) }
    ensures refused { IfErr result
        (IsWrongFor (HasWrongValue name.now (rows_of (found_of options.now)))) }
    ensures size { IfOk result HasGoodSize }
{
    match name {
        "check" => read_check(alloc, options),
        "show" => read_show(alloc, options),
        "to-csv" => read_to_csv(alloc, options),
        "from-csv" => read_from_csv(alloc, options),
        "rewrite" => read_rewrite(alloc, options),
        _ => Err(wrong(alloc, "error: no subcommand\n")),
    }
}

// What a subcommand that is given these options asks for.
fn read_invocation(alloc: Global, name: &str, options: &ArgMatches<'_>) -> Result<Invocation, Usage>
    ensures asked { IfOk result (IsInvocationOf name.now (rows_of (found_of options.now))) }
    ensures refused { IfErr result
        (IsWrongFor (HasWrongValue name.now (rows_of (found_of options.now)))) }
    ensures size { IfOk result (λ asked. HasGoodSize asked.job) }
{
    Ok(Invocation {
        job: read_job(alloc, name, options)?,
        explain: has_flag(options, "explain"),
        progress: has_flag(options, "progress"),
        require_eof: has_flag(options, "require-eof"),
        max_held: read_count(alloc, options, "max-held", u64::MAX)?,
        expect: read_text(alloc, options, "expect")?,
        label: read_label(alloc, options)?,
        summary: has_flag(options, "summary"),
    })
}

// What the subcommand that was found asks for.
fn invocation_of(alloc: Global, words: &ArgMatches<'_>) -> Result<Invocation, Usage>
    ensures asked { IfOk result (IsFound (subcommand_rows_of words.now)) }
    ensures refused { IfErr result (IsWrongFor (IsWrongFound (subcommand_rows_of words.now))) }
    ensures size { IfOk result (λ asked. HasGoodSize asked.job) }
{
    match words.subcommand() {
        Some((name, options)) => read_invocation(alloc, name, options),
        None => Err(wrong(alloc, "error: no subcommand\n")),
    }
}

// Parses the words of a command line, which outlive the command of `clap`.
fn read<'a>(alloc: Global, words: &'a [String]) -> Result<Invocation, Usage>
    ensures asked { IfOk result (Asks (map string_bytes words.entry.now)) }
    ensures refused { IfErr result (AsksNoJob (map string_bytes words.entry.now)) }
    ensures size { IfOk result (λ asked. HasGoodSize asked.job) }
{
    let command: Command<'a> = command(alloc)?;
    match command.try_get_matches_from(words) {
        Ok(matches) => invocation_of(alloc, &matches),
        Err(error) => Err(usage_of(alloc, words, &error)),
    }
}

/// Reads the arguments of a command line, of which the first is the program's name.
///
/// Errors: `Help` if the arguments ask for help or the version; `Wrong` if they are invalid, for
/// example a number out of its range; `OutOfMemory` if memory ran out.
pub fn read_words(alloc: Global, words: Vec<String>) -> Result<Invocation, Usage>
    // The job is the one of the subcommand that the words name, with the values of its options in
    // the words, or else their defaults. A flag is set exactly where the words have it.
    ensures asked { IfOk result (Asks (map string_bytes words.items)) }
    // Help is answered only if help or the version is asked for. `Wrong` is answered only if `clap`
    // refuses the words for another fault, or takes them and a value is none that its option takes.
    // For a word that is no argument, subcommand or option, its text ends with how the subcommand
    // that the second word names, or else `check`, reads a file.
    ensures refused { IfErr result (AsksNoJob (map string_bytes words.items)) }
    // A batch has from 1 to 2^31 - 1 rows.
    ensures size { IfOk result (λ asked. HasGoodSize asked.job) }
{
    read(alloc, words.as_slice())
}

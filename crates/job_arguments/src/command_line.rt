//! The command line of the program, in the words of the crate `clap`: its subcommands, their
//! options and their help.
ghost use Rattle.std.specs.Prelude.{◌≡◌, IfOk, codes, false};
ghost use Rattle.clap.specs.Words.{app_of, new_app, rule_of};
ghost use Rattle.job_arguments.specs.CommandLine as line;
ghost use Rattle.job_arguments.specs.Arguments.{IsCommand};

use clap::builder::ValueParser;
use clap::{Arg, ArgAction, Command};
use ipc_model::{MAX_BODY, MAX_DEPTH, MAX_FIELDS, MAX_METADATA, MAX_PAIRS, MAX_SLOTS, MAX_TEXT};
use std::alloc::{AllocError, Global};

const EXAMPLES: &str = "\
Each subcommand reads standard input and writes to standard output.

Examples:
  arrowstream check < trades.arrows
  arrowstream show < trades.arrows
  arrowstream show --objects --limit 10 < trades.arrows
  arrowstream to-csv < trades.arrows > trades.csv
  arrowstream from-csv --schema trades.json < trades.csv > trades.arrows
  arrowstream rewrite < other.arrows > trades.arrows
  arrowstream show --max-body 1000000 < upload.arrows

Exit status:
  0  success
  1  the input was refused; standard error has the reason
  2  the command line is wrong
  3  standard input, standard output or the schema's file failed
  4  out of memory";

const CHECK_EXAMPLES: &str = "\
The first line is the schema as JSON. The second one has how the stream ended and its numbers of
bytes, batches and rows. With --schema, the first line is printed alone, and nothing is read after
the schema's message.

Examples:
  arrowstream check < trades.arrows
  arrowstream check --schema < trades.arrows > trades.json
  arrowstream check --max-rows 1000000 < upload.arrows";

const SHOW_EXAMPLES: &str = "\
With --pairs, a line {\"metadata\":P} precedes the rows of each batch. P is an array of [key,value]
arrays.

Examples:
  arrowstream show < trades.arrows
  arrowstream show --objects < trades.arrows
  arrowstream show --pairs < trades.arrows
  arrowstream show --limit 3 < trades.arrows";

const TO_CSV_EXAMPLES: &str = "\
Null is the text of --null, and bytes are hexadecimal digits. Columns of lists and structs have no
form in CSV.

Examples:
  arrowstream to-csv < trades.arrows > trades.csv
  arrowstream to-csv --limit 10 < trades.arrows
  arrowstream to-csv --delimiter ';' --null '' < trades.arrows > trades.csv
  arrowstream to-csv --max-rows 1000000 < upload.arrows";

const REWRITE_EXAMPLES: &str = "\
The schema, the batches, their pairs and their rows stay the same. Each batch is laid out as this
program does it, and the stream ends with the end-of-stream mark. --max-output-body, --max-batches,
--max-total-rows and --max-total-bytes bound what is written, and the other --max options what is
read. --max-total-bytes counts all bytes, those of the schema and of the mark included. A batch that
is written may have a longer body than the one that was read: without --max-output-body, up to the
default of --max-body, or --max-body if that is greater.

Examples:
  arrowstream rewrite < other.arrows > trades.arrows
  arrowstream rewrite --max-rows 1000000 < upload.arrows > trades.arrows
  arrowstream rewrite --max-output-body 1000000 --max-batches 1000 < upload.arrows > trades.arrows";

const FROM_CSV_EXAMPLES: &str = "\
The first record is the header: the names of the schema's columns, in order. A field with the text
of --null is null. The schema is JSON in the form of the first line that check prints; SCHEMA.md in
the documents describes it. Each batch is sent as soon as it is full.

Examples:
  arrowstream check --schema < trades.arrows > trades.json
  arrowstream from-csv --schema trades.json < trades.csv > trades.arrows
  arrowstream from-csv --schema trades.json --batch 1000 < trades.csv > trades.arrows
  arrowstream from-csv --schema trades.json --delimiter ';' --null '' < trades.csv > trades.arrows";

// An option of this name with a value, for which its help shows this word.
fn option<'a>(alloc: Global, name: &'a str, value: &'a str) -> Arg<'a>
    ensures rule { rule_of result ≡ line.option name.entry.now }
    ensures own { result.global ≡ false }
{
    let option = Arg::new(alloc, name).long(name);
    option.value_name(value).action(ArgAction::Set)
}

// An option with a number from a least one up to a greatest one, and the one that it has where it
// isn't given.
fn number<'a>(
    alloc: Global,
    name: &'a str,
    least: u64,
    greatest: u64,
    usual: &'a str,
    help: &'a str,
) -> Arg<'a>
    ensures rule { rule_of result ≡ line.number name.entry.now least greatest usual.entry.now }
    ensures own { result.global ≡ false }
{
    let number = option(alloc, name, "N").default_value(usual);
    let parser = ValueParser::unsigned(least, greatest);
    number.value_parser(parser).help(help)
}

// An option with a number up to a greatest one, without a default.
fn count<'a>(alloc: Global, name: &'a str, greatest: u64, help: &'a str) -> Arg<'a>
    ensures rule { rule_of result ≡ line.count name.entry.now 0 greatest }
    ensures own { result.global ≡ false }
{
    let count = option(alloc, name, "N");
    let parser = ValueParser::unsigned(0, greatest);
    count.value_parser(parser).help(help)
}

// An option with a text, and the one that it has where it isn't given.
fn text<'a>(alloc: Global, name: &'a str, value: &'a str, usual: &'a str, help: &'a str) -> Arg<'a>
    ensures rule { rule_of result ≡ line.text name.entry.now usual.entry.now }
    ensures own { result.global ≡ false }
{
    option(alloc, name, value).default_value(usual).help(help)
}

// An option without a value.
fn flag<'a>(alloc: Global, name: &'a str, help: &'a str) -> Arg<'a>
    ensures rule { rule_of result ≡ line.flag name.entry.now }
    ensures own { result.global ≡ false }
{
    let flag = Arg::new(alloc, name).long(name);
    flag.action(ArgAction::SetTrue).help(help)
}

// The option to explain a refusal.
fn explain<'a>(alloc: Global) -> Arg<'a>
    ensures rule { rule_of result ≡ line.explain }
    ensures own { result.global ≡ false }
{
    let help = "After the line of a refusal, print what is known about its cause";
    flag(alloc, "explain", help)
}

// The option for the name before each line of messages.
fn label<'a>(alloc: Global) -> Arg<'a>
    ensures rule { rule_of result ≡ line.label }
    ensures own { result.global ≡ false }
{
    let help = "Begin each line on standard error with this name, a colon and a space";
    option(alloc, "label", "NAME").help(help)
}

// The options for what is printed to standard error.
fn with_messages<'a>(alloc: Global, command: Command<'a>) -> Result<Command<'a>, AllocError>
    requires { IsCommand (app_of command) command }
    ensures { IfOk result (IsCommand (line.with_messages (app_of command.entry))) }
{
    let command = command.arg(explain(alloc))?.arg(label(alloc))?;
    let help = "At the end, print one line of JSON with counts to standard error";
    command.arg(flag(alloc, "summary", help))
}

// The options for the limits of a schema.
fn with_schema_limits<'a>(alloc: Global, command: Command<'a>) -> Result<Command<'a>, AllocError>
    requires { IsCommand (app_of command) command }
    ensures { IfOk result (IsCommand (line.with_schema_limits (app_of command.entry))) }
{
    command
        .arg(number(
            alloc,
            "max-fields",
            0,
            MAX_FIELDS,
            "65536",
            "Maximum fields of a schema, children included",
        ))?
        .arg(number(
            alloc,
            "max-depth",
            0,
            MAX_DEPTH,
            "64",
            "Maximum nesting of fields; a column has depth 1",
        ))?
        .arg(number(
            alloc,
            "max-text",
            0,
            MAX_TEXT,
            "67108864",
            "Maximum bytes of a schema's names, keys, values and timezones",
        ))?
        .arg(number(
            alloc,
            "max-pairs",
            0,
            MAX_PAIRS,
            "1048576",
            "Maximum key-value pairs of a schema or a batch",
        ))
}

// The options for the limits of a message.
fn with_message_limits<'a>(alloc: Global, command: Command<'a>) -> Result<Command<'a>, AllocError>
    requires { IsCommand (app_of command) command }
    ensures { IfOk result (IsCommand (line.with_message_limits (app_of command.entry))) }
{
    command
        .arg(number(
            alloc,
            "max-metadata",
            0,
            MAX_METADATA,
            "16777216",
            "Maximum bytes of a message's metadata",
        ))?
        .arg(number(
            alloc,
            "max-body",
            0,
            MAX_BODY,
            "1099511627776",
            "Maximum bytes of a message's body",
        ))?
        .arg(number(
            alloc,
            "max-rows",
            0,
            MAX_SLOTS,
            "2147483647",
            "Maximum rows of a batch",
        ))
}

// The options for the end of a stream, and for what is reported of it.
fn with_reports<'a>(alloc: Global, command: Command<'a>) -> Result<Command<'a>, AllocError>
    requires { IsCommand (app_of command) command }
    ensures { IfOk result (IsCommand (line.with_reports (app_of command.entry))) }
{
    let help = "Refuse a stream that ends without the end-of-stream mark";
    let command = command.arg(flag(alloc, "require-mark", help))?;
    let help = "Refuse a stream with a byte after its end-of-stream mark";
    let command = command.arg(flag(alloc, "require-eof", help))?;
    let help = "Print the bytes, batches and rows so far to standard error";
    with_messages(alloc, command)?.arg(flag(alloc, "progress", help))
}

// The option for the number of bytes that are held of a stream.
fn max_held<'a>(alloc: Global) -> Arg<'a>
    ensures rule { rule_of result ≡ line.max_held }
    ensures own { result.global ≡ false }
{
    let help = "Maximum bytes held of a message and of dictionaries; stop before more";
    count(alloc, "max-held", u64::MAX, help)
}

// The option that names the file with the schema that a stream must have.
fn expect<'a>(alloc: Global) -> Arg<'a>
    ensures rule { rule_of result ≡ line.expect }
    ensures own { result.global ≡ false }
{
    let help = "Refuse a stream with another schema than that of this file, as JSON";
    option(alloc, "expect", "PATH").help(help)
}

// The options of a subcommand that reads a stream: its limits, its schema, its end, and what is
// reported of it.
fn with_stream<'a>(alloc: Global, command: Command<'a>) -> Result<Command<'a>, AllocError>
    requires { IsCommand (app_of command) command }
    ensures { IfOk result (IsCommand (line.with_stream (app_of command.entry))) }
{
    let command = with_message_limits(alloc, command)?.arg(max_held(alloc))?;
    let command = with_schema_limits(alloc, command)?.arg(expect(alloc))?;
    with_reports(alloc, command)
}

// The option for the number of rows that are printed.
fn limit<'a>(alloc: Global) -> Arg<'a>
    ensures rule { rule_of result ≡ line.limit }
    ensures own { result.global ≡ false }
{
    let help = "Print the first N rows, and read no batch after them";
    count(alloc, "limit", u64::MAX, help)
}

// A subcommand with this help and no options.
fn command_with_help<'a>(
    alloc: Global,
    name: &'a str,
    about: &'a str,
    examples: &'a str,
) -> Command<'a>
    ensures { IsCommand (new_app name.entry.now) result }
{
    let job = Command::new(alloc, name);
    job.about(about).after_help(examples)
}

// A subcommand that reads a stream to its end.
fn check<'a>(alloc: Global) -> Result<Command<'a>, AllocError>
    ensures { IfOk result (IsCommand line.check) }
{
    let about = "Read an Arrow IPC stream to its end, and print its schema and counts";
    let check = command_with_help(alloc, "check", about, CHECK_EXAMPLES);
    let help = "Print the schema alone, and read nothing after its message";
    with_stream(alloc, check.arg(flag(alloc, "schema", help))?)
}

// The subcommand that prints rows.
fn show<'a>(alloc: Global) -> Result<Command<'a>, AllocError>
    ensures { IfOk result (IsCommand line.show) }
{
    let about = "Print each row of an Arrow IPC stream as a JSON array on a line of its own";
    let show = command_with_help(alloc, "show", about, SHOW_EXAMPLES);
    let help = "Print each row as a JSON object with the columns' names as keys";
    let show = show.arg(flag(alloc, "objects", help))?;
    let help = "Before the rows of each batch, print its metadata as one JSON line";
    let show = show.arg(flag(alloc, "pairs", help))?;
    with_stream(alloc, show.arg(limit(alloc))?)
}

// The options for the dialect of CSV.
fn with_dialect<'a>(alloc: Global, command: Command<'a>) -> Result<Command<'a>, AllocError>
    requires { IsCommand (app_of command) command }
    ensures { IfOk result (IsCommand (line.with_dialect (app_of command.entry))) }
{
    command
        .arg(text(
            alloc,
            "delimiter",
            "C",
            ",",
            "Field separator: one ASCII character that occurs in no value; \\t is a tab",
        ))?
        .arg(text(
            alloc,
            "null",
            "TEXT",
            "\\N",
            "Text that stands for null; to-csv refuses a value equal to it",
        ))
}

// The subcommand that prints a stream as CSV.
fn to_csv<'a>(alloc: Global) -> Result<Command<'a>, AllocError>
    ensures { IfOk result (IsCommand line.to_csv) }
{
    let about = "Print an Arrow IPC stream as CSV with a header";
    let to_csv = command_with_help(alloc, "to-csv", about, TO_CSV_EXAMPLES);
    let to_csv = with_dialect(alloc, to_csv)?;
    with_stream(alloc, to_csv.arg(limit(alloc))?)
}

// The option that names the file with the schema.
fn schema<'a>(alloc: Global) -> Arg<'a>
    ensures rule { rule_of result ≡ line.needed (codes "schema") }
    ensures own { result.global ≡ false }
{
    let schema = option(alloc, "schema", "PATH").required(true);
    schema.help("A file with the schema as JSON")
}

// The option that says how many rows a batch has.
fn batch<'a>(alloc: Global) -> Arg<'a>
    ensures rule { rule_of result ≡ line.batch }
    ensures own { result.global ≡ false }
{
    let help = "Rows of a batch; the last batch may have fewer";
    number(alloc, "batch", 1, MAX_SLOTS, "65536", help)
}

// The option that says how many bytes a batch has.
fn batch_bytes<'a>(alloc: Global) -> Arg<'a>
    ensures rule { rule_of result ≡ line.batch_bytes }
    ensures own { result.global ≡ false }
{
    let help = "Maximum bytes of a batch's body; a batch ends before it would have more";
    count(alloc, "batch-bytes", MAX_BODY, help)
}

// The subcommand that writes a stream of CSV.
fn from_csv<'a>(alloc: Global) -> Result<Command<'a>, AllocError>
    ensures { IfOk result (IsCommand line.from_csv) }
{
    let about = "Convert CSV to an Arrow IPC stream";
    let from_csv = command_with_help(alloc, "from-csv", about, FROM_CSV_EXAMPLES);
    let from_csv = from_csv
        .arg(schema(alloc))?
        .arg(batch(alloc))?
        .arg(batch_bytes(alloc))?;
    let help = "Refuse blank lines, quotes inside fields, and a last line without its end";
    let from_csv = with_dialect(alloc, from_csv)?.arg(flag(alloc, "strict", help))?;
    with_messages(alloc, from_csv)
}

// The options for the limits of what is written.
fn with_output_limits<'a>(alloc: Global, command: Command<'a>) -> Result<Command<'a>, AllocError>
    requires { IsCommand (app_of command) command }
    ensures { IfOk result (IsCommand (line.with_output_limits (app_of command.entry))) }
{
    command
        .arg(count(
            alloc,
            "max-output-body",
            MAX_BODY,
            "Maximum bytes of a message's body in what is written",
        ))?
        .arg(count(
            alloc,
            "max-batches",
            u64::MAX,
            "Maximum batches that are written; stop before the next one",
        ))?
        .arg(count(
            alloc,
            "max-total-rows",
            u64::MAX,
            "Maximum rows that are written; stop before a batch with more",
        ))?
        .arg(count(
            alloc,
            "max-total-bytes",
            u64::MAX,
            "Maximum bytes that are written; stop before a batch with more",
        ))
}

// The subcommand that writes a stream anew.
fn rewrite<'a>(alloc: Global) -> Result<Command<'a>, AllocError>
    ensures { IfOk result (IsCommand line.rewrite) }
{
    let about = "Rewrite an Arrow IPC stream in canonical layout, batch by batch";
    let rewrite = command_with_help(alloc, "rewrite", about, REWRITE_EXAMPLES);
    with_stream(alloc, with_output_limits(alloc, rewrite)?)
}

// The program's words without its subcommands.
fn program<'a>(alloc: Global) -> Command<'a>
    ensures { IsCommand line.program result }
{
    let about = "Read and write Apache Arrow IPC streams";
    let program = command_with_help(alloc, "arrowstream", about, EXAMPLES);
    program.version("0.1.0").subcommand_required(true)
}

/// The arguments of the program. The help lists the subcommands in the order in which they are
/// added.
pub(crate) fn command<'a>(alloc: Global) -> Result<Command<'a>, AllocError>
    ensures { IfOk result (IsCommand line.arrowstream) }
{
    let command = program(alloc).subcommand(check(alloc)?)?;
    let command = command.subcommand(show(alloc)?)?;
    let command = command.subcommand(to_csv(alloc)?)?;
    let command = command.subcommand(from_csv(alloc)?)?;
    command.subcommand(rewrite(alloc)?)
}

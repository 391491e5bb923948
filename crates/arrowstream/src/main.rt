//! The command `arrowstream`, which reads and writes Arrow IPC streams: see `arrowstream --help`.
#![tactic(auto)]

ghost use Rattle.std.specs.Prelude.{IfOk};
ghost use Rattle.job_arguments.specs.Arguments.{HasGoodSize};

mod descriptors;
mod progress;
mod schema_file;

use descriptors::fill_closed;
use ipc_device::{Device, Retry, Sink};
use ipc_stream::Seed;
use job_arguments::{Invocation, Job, Usage, read_words};
use job_command::{Counted, LastReport, run};
use progress::ProgressLine;
use schema_file::{SchemaFile, open_schema};
use std::alloc::{AllocError, Global};
use std::env::Args;
use std::hash::RandomState;
use std::io::{BufWriter, IsTerminal, Write};
use std::process::ExitCode;
use std::{env, io};

// The arguments of the command line, after the program's name. The name is constant, so that the
// usage does not depend on the path by which the program was started.
fn collect_words(alloc: Global, words: Args) -> Result<Vec<String>, AllocError> {
    let mut all = Vec::new(alloc);
    all.push(String::from_str(alloc, "arrowstream")?)?;
    for word in words.skip(1) {
        all.push(word)?;
    }
    Ok(all)
}

// What the command line asks for.
fn read_command_line(rt: &HostRuntime) -> Result<Invocation, Usage>
    ensures { IfOk result (λ invocation. HasGoodSize invocation.job) }
{
    match env::args(rt) {
        Ok(words) => read_words(rt.alloc(), collect_words(rt.alloc(), words)?),
        Err(error) if error.kind() == io::ErrorKind::OutOfMemory => Err(Usage::OutOfMemory),
        Err(_) => Err(Usage::Wrong(String::from_str(rt.alloc(), "error: a word is not UTF-8\n")?)),
    }
}

// The job's subcommand, with the option that it needs.
fn words_of(job: &Job) -> &'static str {
    match job {
        Job::FromCsv { .. } => "from-csv --schema PATH",
        _ => job.subcommand(),
    }
}

// Refuses a terminal as standard input, and as standard output of a job that writes a stream.
fn check_terminals(rt: &HostRuntime, job: &Job) -> Result<(), Usage> {
    let name = words_of(job);
    if rt.stdin().is_terminal() {
        return Err(Usage::Wrong(format!(in rt.alloc();
            "error: standard input is a terminal; use: arrowstream {name} < FILE\n"
        )?));
    }
    let writes_stream = matches!(job, Job::Rewrite { .. } | Job::FromCsv { .. });
    if writes_stream && rt.stdout().is_terminal() {
        return Err(Usage::Wrong(format!(in rt.alloc();
            "error: standard output is a terminal; use: arrowstream {name} < FILE > STREAM\n"
        )?));
    }
    Ok(())
}

// What the command line asks for, with its schema's file.
fn read_invocation_and_schema(rt: &HostRuntime) -> Result<(Invocation, SchemaFile), Usage>
    ensures { IfOk result (λ read. HasGoodSize read.0.job) }
{
    let invocation = read_command_line(rt)?;
    check_terminals(rt, &invocation.job)?;
    let schema = open_schema(rt, &invocation)?;
    Ok((invocation, schema))
}

// Prints why there is no job, and returns the exit status.
fn tell_usage(rt: &HostRuntime, usage: &Usage) -> u8 {
    match usage {
        Usage::Help(text) => match io::writer(rt).write_all(text.as_bytes()) {
            Ok(()) => 0,
            Err(_) => 3,
        },
        Usage::Wrong(text) => {
            let _ = rt.stderr().write_all(text.as_bytes());
            2
        }
        Usage::OutOfMemory => {
            let _ = rt.stderr().write_all(b"out of memory\n");
            4
        }
    }
}

// What the values of dictionaries are hashed with, drawn at random where the system gives such
// numbers.
fn draw_seed(rt: &HostRuntime) -> Seed {
    match RandomState::new(rt) {
        Ok(state) => Seed::Random(state),
        Err(_) => Seed::Fixed,
    }
}

// Appends a line with the system's words for the failure of a device, if the system gave a code. A
// device that does not wait is no failure of the system's: another program has set it so. The line
// begins with the label.
fn explain_device<W: Write>(
    alloc: Global,
    messages: &mut W,
    label: &str,
    name: &str,
    code: Option<i32>,
) {
    let Some(code) = code else {
        return;
    };
    let error = io::Error::from_raw_os_error(code);
    let hint = match error.kind() {
        io::ErrorKind::WouldBlock => "; another program has set it not to wait (O_NONBLOCK)",
        _ => "",
    };
    if let Ok(line) = format!(in alloc; "{label}{name}: {error}{hint}\n") {
        let _ = messages.write_all(line.as_bytes());
    }
}

// Does the job, and returns the exit status. All that is printed of a job that stops is one write,
// and the summary after it is another.
fn run_job(rt: &HostRuntime, invocation: Invocation, schema: SchemaFile) -> Result<u8, Usage>
    requires { HasGoodSize invocation.job }
{
    let alloc = rt.alloc();
    let messages = BufWriter::new(alloc, Retry::new(rt.stderr()));
    let summary = BufWriter::new(alloc, Retry::new(rt.stderr()));
    let (Ok(messages), Ok(summary)) = (messages, summary) else {
        return Err(Usage::OutOfMemory);
    };
    let mut messages = Device::new(messages);
    let mut summary = Device::new(summary);
    let label = String::from_str(alloc, invocation.label.as_str())?;
    let label = label.as_str();
    let mut progress = LastReport::new(ProgressLine::start(rt, invocation.progress, label));
    let explain = invocation.explain;
    let (status, input, output, file) = run(
        alloc,
        draw_seed(rt),
        invocation,
        schema.file,
        Counted::new(Device::new(Retry::new(rt.reader()))),
        Counted::new(Device::new(Retry::new(io::writer(rt)))),
        &mut progress,
        &mut messages,
        &mut summary,
    );
    progress.into_inner().finish();
    let mut messages = messages.into_inner();
    if explain {
        let schema_code = file.map_or(schema.code, |file| file.into_inner().code());
        let devices = [
            (schema.path.as_str(), schema_code),
            ("standard input", input.into_inner().into_inner().code()),
            ("standard output", output.into_inner().into_inner().code()),
        ];
        for &(name, code) in &devices {
            explain_device(alloc, &mut messages, label, name, code);
        }
    }
    let _ = messages.flush();
    let _ = summary.into_inner().flush();
    Ok(status)
}

fn main(rt: HostRuntime) -> ExitCode {
    let _closed = fill_closed(&rt);
    let result = match read_invocation_and_schema(&rt) {
        Ok((invocation, schema)) => run_job(&rt, invocation, schema),
        Err(usage) => Err(usage),
    };
    match result {
        Ok(status) => ExitCode::from(status),
        Err(usage) => ExitCode::from(tell_usage(&rt, &usage)),
    }
}

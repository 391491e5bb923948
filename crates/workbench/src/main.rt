//! The program `workbench`. Its first argument is the job:
//!
//!     workbench push-rows i64|mixed|dictionary|nested BATCHES ROWS > STREAM
//!     workbench pull < STREAM
//!     workbench answer|read < LINES
//!
//! | job | what it does |
//! |---|---|
//! | `push-rows` | makes 1,024 rows, and pushes `ROWS` of them in turn for each batch |
//! | `pull` | reads standard input with a reader, drops each batch, and counts |
//! | `answer` | answers each line, a stream in hexadecimal digits, by lines and an empty one |
//! | `read` | the same, but reads each stream once and whole, and writes it only from columns |
//!
//! A line of `answer` may set limits after the stream, as in `, metadata 39, slots 3`. The answer
//! has what the library reads in the stream, whether it reads the same when the bytes come in small
//! pieces, pulled or pushed, whether the rows come back when they are written, and whether they are
//! written alike from columns.
//! `cases/README.md` describes its lines.
#![tactic(auto)]

mod answer;
mod cities;
mod columns;
mod cut;
mod decoded_events;
mod job;
mod lines;
mod nested;
mod pulls;
mod pushed;
mod report;
mod request;
mod requests;
mod rows;
mod values;
mod words;

use anyhow::Result;
use job::Job;
use pulls::{Counts, pull_stream};
use pushed::push_rows;
use requests::answer_lines;
use std::process::ExitCode;
use std::{env, io};

const USAGE: &str = "\
usage: workbench push-rows i64|mixed|dictionary|nested BATCHES ROWS > STREAM
       workbench pull < STREAM
       workbench answer|read < LINES";

fn tell(rt: &HostRuntime, counts: Counts) -> Result<()> {
    let Counts { batches, rows } = counts;
    println!(rt; "{batches} batches, {rows} rows")?;
    Ok(())
}

fn run(rt: &HostRuntime, job: Job) -> Result<()> {
    match job {
        Job::PushRows {
            data,
            batches,
            rows,
        } => {
            push_rows(rt.alloc(), io::writer(rt), data, batches, rows)?;
            Ok(())
        }
        Job::Pull => tell(rt, pull_stream(rt.alloc(), rt.reader())?),
        Job::Answer => answer_lines(rt, false),
        Job::Read => answer_lines(rt, true),
    }
}

// Does the job of the command line. Returns false if it names none.
fn run_words(rt: &HostRuntime) -> Result<bool> {
    let Some(job) = Job::asked(env::args(rt)?) else {
        return Ok(false);
    };
    run(rt, job)?;
    Ok(true)
}

fn main(rt: HostRuntime) -> ExitCode {
    match run_words(&rt) {
        Ok(true) => ExitCode::from(0),
        Ok(false) => {
            let _ = rt.eprintln(USAGE);
            ExitCode::from(2)
        }
        Err(fault) => {
            let _ = eprintln!(rt; "{fault}");
            ExitCode::from(1)
        }
    }
}

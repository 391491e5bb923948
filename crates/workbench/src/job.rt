//! The job that a command line asks for.
use crate::rows::Data;
use std::env::Args;

/// A job.
#[derive(Clone, Copy)]
pub enum Job {
    /// Writes a stream of rows that are pushed one by one.
    PushRows {
        /// What the rows contain.
        data: Data,
        /// The number of batches.
        batches: u32,
        /// The number of rows in each batch.
        rows: u32,
    },
    /// Reads the stream of standard input with a reader.
    Pull,
    /// Answers each line of standard input, which is a stream.
    Answer,
    /// Reads each such stream only once, whole.
    Read,
}

fn number(words: &mut Args) -> Option<u32> {
    words.next()?.as_str().parse::<u32>().ok()
}

// The job with this name. The next words are its numbers.
fn named(name: &str, words: &mut Args) -> Option<Job> {
    Some(match name {
        "push-rows" => Job::PushRows {
            data: Data::of(words.next()?.as_str())?,
            batches: number(words)?,
            rows: number(words)?,
        },
        "pull" => Job::Pull,
        "answer" => Job::Answer,
        "read" => Job::Read,
        _ => return None,
    })
}

impl Job {
    /// The job that the words ask for. The first word is the program's name.
    pub fn asked(words: Args) -> Option<Job> {
        let mut words = words;
        let _program = words.next();
        let name = words.next()?;
        let job = named(name.as_str(), &mut words)?;
        if words.next().is_some() {
            return None;
        }
        Some(job)
    }
}

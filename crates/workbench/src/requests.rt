//! Answers to streams that are given in lines.
use crate::answer::Answer;
use crate::columns::ByColumns;
use crate::cut::Cut;
use crate::report::Report;
use crate::request::Request;
use anyhow::Result;
use std::alloc::Global;
use std::io;
use std::io::{BufRead, BufReader, BufWriter, Write};

// Writes all answers to the stream of a line, and an empty line.
fn answer<W: Write>(alloc: Global, line: &str, output: &mut W) -> Result<()> {
    let report = Report::of(alloc, &Request::of(alloc, line)?)?;
    writeln!(output, "{report}")?;
    Ok(())
}

// Writes what a reader answers to the stream of a line, how its batches are written, and an empty
// line.
fn read<W: Write>(alloc: Global, line: &str, output: &mut W) -> Result<()> {
    let request = Request::of(alloc, line)?;
    let answer = Answer::pulled(alloc, &request, Cut::Each(usize::MAX))?;
    let columns = ByColumns::of(alloc, &request)?;
    writeln!(output, "{answer}{columns}")?;
    Ok(())
}

/// Answers each line of standard input: a stream in hexadecimal digits, followed by the limits that
/// are not the standard ones, as in `, metadata 39, slots 3`. Each is read in many ways, or only
/// once.
pub fn answer_lines(rt: &HostRuntime, once: bool) -> Result<()> {
    let alloc = rt.alloc();
    let mut output = BufWriter::new(alloc, io::writer(rt))?;
    for line in BufReader::new(alloc, rt.reader())?.lines(alloc) {
        let line = line?;
        if once {
            read(alloc, line.as_str(), &mut output)?;
        } else {
            answer(alloc, line.as_str(), &mut output)?;
        }
    }
    output.flush()?;
    Ok(())
}

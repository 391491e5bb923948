//! What a reader answers to a stream.
use crate::cut::{Cut, InTwo, source_of};
use crate::request::Request;
use ipc_model::{BatchRows, Fault, Items, Table, Text};
use ipc_stream::{Batch, End, Limited, Memory, Source, StreamReader};
use std::alloc::{AllocError, Global};

/// What a reader answers to a stream.
#[derive(PartialEq, Eq, Drop)]
pub struct Answer {
    /// The schema and the batches that were read, or `None` if the schema was refused.
    pub table: Option<Table>,
    /// How the stream ends, or `None` if it was refused.
    pub end: Option<End>,
    /// Why it was refused, and the number of the refused message.
    pub refusal: Option<(Fault, u64)>,
    /// How many bytes the reader took by its own count, or `None` if the schema was refused.
    pub taken: Option<u64>,
    /// How many bytes remain in the source.
    pub left: usize,
}

/// Appends the rows of a batch to those that are kept.
pub fn keep_rows(
    alloc: Global,
    batch: &Batch,
    pairs: Items<(Text, Text)>,
    batches: &mut Vec<BatchRows>,
) -> Result<(), Fault> {
    let rows = batch.to_rows(alloc)?;
    batches.push(BatchRows { pairs, rows })?;
    Ok(())
}

// Reads the batches up to the end.
fn read_batches<R: Source>(
    alloc: Global,
    reader: &mut StreamReader<R>,
    batches: &mut Vec<BatchRows>,
) -> Result<(), Fault> {
    while let Some((batch, pairs)) = reader.next()? {
        keep_rows(alloc, &batch, pairs, batches)?;
    }
    Ok(())
}

// How many bytes remain in the source.
fn left_in(source: Limited<InTwo<Memory>>) -> usize {
    source.into_inner().into_inner().unread().len()
}

// What is read after the schema. The count of remaining bytes is still 0.
fn read_behind<R: Source>(
    alloc: Global,
    reader: &mut StreamReader<R>,
) -> Result<Answer, AllocError> {
    let schema = reader.schema().clone()?;
    let mut batches = Vec::new(alloc);
    let result = read_batches(alloc, reader, &mut batches);
    let batches = Items::from_vec(batches);
    let messages = reader.messages();
    Ok(Answer {
        table: Some(Table { schema, batches }),
        end: reader.end(),
        refusal: result.err().map(|fault| (fault, messages)),
        taken: Some(reader.taken()),
        left: 0,
    })
}

// What is read after the schema, with the bytes that remain in the source.
fn read_on(
    alloc: Global,
    reader: StreamReader<Limited<InTwo<Memory>>>,
) -> Result<Answer, AllocError> {
    let mut reader = reader;
    let mut answer = read_behind(alloc, &mut reader)?;
    answer.left = left_in(reader.into_inner());
    Ok(answer)
}

impl Answer {
    /// Reads a stream that is cut in this way.
    pub fn pulled(alloc: Global, request: &Request, cut: Cut) -> Result<Answer, AllocError> {
        let source = source_of(request.stream.clone()?, cut);
        match StreamReader::open(alloc, request.limits, source) {
            Ok(reader) => read_on(alloc, reader),
            Err((fault, source)) => Ok(Answer {
                table: None,
                end: None,
                refusal: Some((fault, 0)),
                taken: None,
                left: left_in(source),
            }),
        }
    }
}

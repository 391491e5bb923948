//! Writes the batches of a stream from their columns and from their rows, and compares.
use crate::request::Request;
use ipc_model::{BatchRows, Fault, Items, Limits, Schema, Text, WriteFault};
use ipc_stream::{Batch, Memory, Source, StreamReader, StreamWriter};
use std::alloc::{AllocError, Global};

// Two writers of one schema, and whether they answered alike so far.
#[derive(Drop)]
struct Writers {
    by_columns: StreamWriter<Memory>,
    by_rows: StreamWriter<Memory>,
    same: bool,
}

fn started(alloc: Global, schema: &Schema) -> Result<StreamWriter<Memory>, WriteFault> {
    let sink = Memory::new(Vec::new(alloc));
    Ok(StreamWriter::start(alloc, Limits::standard(), sink, schema)?)
}

fn ended(writer: StreamWriter<Memory>) -> Result<Vec<u8>, WriteFault> {
    Ok(writer.finish()?.into_bytes())
}

// Takes the bytes that were written out of the sink.
fn taken(alloc: Global, writer: &mut StreamWriter<Memory>) -> Vec<u8> {
    let sink = writer.replace_sink(Memory::new(Vec::new(alloc)));
    sink.into_bytes()
}

// The body that a batch has when its columns are written, or why they are not.
fn copied(
    alloc: Global,
    writer: &StreamWriter<Memory>,
    batch: &Batch,
) -> Result<Result<Vec<u8>, WriteFault>, AllocError> {
    let size = match writer.copy_canonical(batch, &mut [], &mut []) {
        Ok(size) => size,
        Err(fault) => return Ok(Err(fault)),
    };
    let mut body = vec![in alloc; 0xff; size.bytes]?;
    let count = size.nodes.saturating_add(size.buffers).saturating_mul(2);
    let mut numbers = vec![in alloc; 0; count]?;
    match writer.copy_canonical(batch, &mut body, &mut numbers) {
        Ok(_) => Ok(Ok(body)),
        Err(fault) => Ok(Err(fault)),
    }
}

impl Writers {
    fn start(alloc: Global, schema: &Schema) -> Result<Writers, WriteFault> {
        Ok(Writers {
            by_columns: started(alloc, schema)?,
            by_rows: started(alloc, schema)?,
            same: true,
        })
    }

    // Copies the body of a batch, and writes it in both ways.
    fn write(
        &mut self,
        alloc: Global,
        batch: &Batch,
        pairs: Items<(Text, Text)>,
    ) -> Result<(), Fault> {
        let rows = batch.to_rows(alloc)?;
        let copied = copied(alloc, &self.by_columns, batch)?;
        let by_columns = self.by_columns.write_columns(batch, pairs.clone()?);
        let by_rows = self.by_rows.write_batch(&BatchRows { pairs, rows });
        let bytes = taken(alloc, &mut self.by_columns);
        let same_bytes = bytes.as_slice() == taken(alloc, &mut self.by_rows).as_slice();
        let ends_so = match (&copied, &by_columns) {
            (Ok(body), Ok(())) => bytes.as_slice().ends_with(body.as_slice()),
            (Err(fault), Err(wanted)) => fault == wanted,
            _ => false,
        };
        self.same = self.same && by_columns == by_rows && same_bytes && ends_so;
        Ok(())
    }

    // Writes all batches that are read.
    fn write_all<R: Source>(
        &mut self,
        alloc: Global,
        reader: &mut StreamReader<R>,
    ) -> Result<(), Fault> {
        while let Some((batch, pairs)) = reader.next()? {
            self.write(alloc, &batch, pairs)?;
        }
        Ok(())
    }

    // Whether all answers were the same, and the two streams are.
    fn is_same(self) -> Result<bool, WriteFault> {
        let by_columns = ended(self.by_columns)?;
        let by_rows = ended(self.by_rows)?;
        Ok(self.same && by_columns.as_slice() == by_rows.as_slice())
    }
}

/// How the batches of a stream are written from their columns.
#[derive(Clone, Copy, PartialEq, Eq)]
pub enum ByColumns {
    /// Exactly as from their rows, or refused as these are. It is so too where no writer takes the
    /// schema.
    Same,
    /// Otherwise.
    Differs,
}

impl ByColumns {
    /// How the batches before the end or the refusal of a stream are written.
    pub fn of(alloc: Global, request: &Request) -> Result<ByColumns, AllocError> {
        let source = Memory::new(request.stream.clone()?);
        let Ok(mut reader) = StreamReader::open(alloc, request.limits, source) else {
            return Ok(ByColumns::Same);
        };
        let Ok(mut writers) = Writers::start(alloc, reader.schema()) else {
            return Ok(ByColumns::Same);
        };
        let _ended = writers.write_all(alloc, &mut reader);
        Ok(if writers.is_same().unwrap_or(false) {
            ByColumns::Same
        } else {
            ByColumns::Differs
        })
    }
}

//! A stream that is written, as a value between the calls of a program in another language.
ghost use Rattle.std.specs.Prelude.{◌≡◌, Err, IfErr, IfOk, OnOk};
ghost use Rattle.ipc_stream_session.specs.Parts.{IsHead};
ghost use Rattle.ipc_stream_session.specs.Writes as w;

use crate::batch::ReadBatch;
use crate::cells::{Nesting, OpenNesting, pop, push};
use crate::open_table::OpenTable;
use crate::parts::head_of;
use crate::ready::Ready;
use crate::stage::Stage;
use crate::write_error::WriteError;
use ipc_meta::BatchHead;
use ipc_model::{BatchRows, Fault, Items, Limits, Row, Schema, Text, Value, WriteFault, conforms};
use ipc_stream::CanonicalSize;
use ipc_text_json::schema_from_json_bytes;
use ipc_text_temporal::TextFault;
use std::alloc::{AllocError, Global};
use std::mem;

// The most lists and structs around a cell: no schema nests its fields deeper.
const MAX_NESTING: usize = 64;

/// A stream that is written cell by cell, with the rows and pairs that were not sent and the last
/// error.
///
/// It is new, then open from its schema on, and ended by `finish` and after W9 or W11. A call that
/// needs another state returns the number of `WriteError::Misuse`, or of W10 after the end, and
/// changes nothing but the last error, which is that of the last call that was refused. W10 does
/// not replace it.
#[derive(Drop)]
pub struct WriteSession {
    limits: Limits,
    stage: Stage,
    // The bytes that are taken next. Those of `stage` follow.
    front: Ready,
    // The cells of the innermost list or struct that has not ended, or of the row.
    cells: Items<Value>,
    // The open lists and structs, outermost first.
    nestings: Items<OpenNesting>,
    rows: Items<Row>,
    // The pairs of the batch that these rows are sent as.
    pairs: Items<(Text, Text)>,
    error: Option<WriteError>,
    alloc: Global,
}

// Copies two texts as a pair, if both are UTF-8.
fn pair_of(alloc: Global, key: &[u8], value: &[u8]) -> Result<Option<(Text, Text)>, AllocError>
    ensures { w.MakesPair key.now value.now result }
{
    let Ok(key) = str::from_utf8(key) else {
        return Ok(None);
    };
    let Ok(value) = str::from_utf8(value) else {
        return Ok(None);
    };
    let key = Text::copied(alloc, key)?;
    let value = Text::copied(alloc, value)?;
    Ok(Some((key, value)))
}

// Calls that leave the last error as it is.
impl WriteSession {
    // Ends the stream, for this cause.
    fn end(&mut self, fault: WriteFault) -> WriteError
        ensures ended { w.EndsSession self.old self.new }
        ensures cause { result ≡ WriteError.Refused fault }
    {
        let stage = mem::replace(&mut self.stage, Stage::New);
        self.stage = Stage::Ended(stage.into_ready(self.alloc));
        WriteError::Refused(fault)
    }

    fn try_begin(&mut self, text: &[u8]) -> Result<(), WriteError>
        ensures { w.BeginsSession text.now self.old self.new result }
    {
        self.stage.check_new()?;
        let schema = match schema_from_json_bytes(self.alloc, text) {
            Ok(schema) => schema,
            Err(TextFault::OutOfMemory) => return Err(self.end(WriteFault::OutOfMemory)),
            Err(_) => return Err(WriteError::BadSchemaJson),
        };
        match OpenTable::start(self.alloc, self.limits, schema) {
            Ok(table) => {
                self.stage = Stage::Open(table);
                Ok(())
            }
            Err((fault, ready)) => {
                if matches!(fault, WriteFault::Write | WriteFault::OutOfMemory) {
                    self.stage = Stage::Ended(ready);
                }
                Err(WriteError::Refused(fault))
            }
        }
    }

    fn try_add(&mut self, cell: Value) -> Result<(), WriteError>
        ensures { w.Adds cell self.old self.new result }
    {
        self.stage.open()?;
        if push(&mut self.cells, cell).is_err() {
            return Err(self.end(WriteFault::OutOfMemory));
        }
        Ok(())
    }

    fn try_add_bytes(&mut self, bytes: &[u8]) -> Result<(), WriteError>
        ensures { w.Adds (Value.Bytes bytes.now) self.old self.new result }
    {
        self.stage.open()?;
        match Items::copied(self.alloc, bytes) {
            Ok(copy) => self.try_add(Value::Bytes(copy)),
            Err(_) => Err(self.end(WriteFault::OutOfMemory)),
        }
    }

    fn try_add_text(&mut self, text: &[u8]) -> Result<(), WriteError>
        ensures { w.AddsText text.now self.old self.new result }
    {
        self.stage.open()?;
        let Ok(text) = str::from_utf8(text) else {
            return Err(WriteError::NotUtf8);
        };
        match Text::copied(self.alloc, text) {
            Ok(copy) => self.try_add(Value::Text(copy)),
            Err(_) => Err(self.end(WriteFault::OutOfMemory)),
        }
    }

    fn try_begin_cell(&mut self, kind: Nesting) -> Result<(), WriteError>
        ensures { w.BeginsCell kind self.old self.new result }
    {
        self.stage.open()?;
        if self.nestings.len() >= MAX_NESTING {
            return Err(WriteError::Misuse);
        }
        let cells = mem::replace(&mut self.cells, Items::new(self.alloc));
        if push(&mut self.nestings, OpenNesting { kind, cells }).is_err() {
            return Err(self.end(WriteFault::OutOfMemory));
        }
        Ok(())
    }

    fn try_end_cell(&mut self) -> Result<(), WriteError>
        ensures { w.EndsCell self.old self.new result }
    {
        self.stage.open()?;
        let Some(OpenNesting { kind, cells }) = pop(&mut self.nestings) else {
            return Err(WriteError::Misuse);
        };
        let cell = kind.of(mem::replace(&mut self.cells, cells));
        if push(&mut self.cells, cell).is_err() {
            return Err(self.end(WriteFault::OutOfMemory));
        }
        Ok(())
    }

    fn try_end_row(&mut self) -> Result<(), WriteError>
        ensures { w.EndsRow self.old self.new result }
    {
        let table = self.stage.open()?;
        if !self.nestings.is_empty() {
            return Err(WriteError::Misuse);
        }
        let row = mem::replace(&mut self.cells, Items::new(self.alloc));
        if let Err(fault) = conforms(table.schema(), row.as_slice()) {
            return Err(WriteError::Refused(fault.at_row(self.rows.len() as u64)));
        }
        if push(&mut self.rows, row).is_err() {
            return Err(self.end(WriteFault::OutOfMemory));
        }
        Ok(())
    }

    fn try_drop_row(&mut self) -> Result<(), WriteError>
        ensures { w.DropsRow self.old self.new result }
    {
        self.stage.open()?;
        self.cells = Items::new(self.alloc);
        self.nestings = Items::new(self.alloc);
        Ok(())
    }

    fn try_add_pair(&mut self, key: &[u8], value: &[u8]) -> Result<(), WriteError>
        ensures { w.AddsPair key.now value.now self.old self.new result }
    {
        self.stage.open()?;
        match pair_of(self.alloc, key, value) {
            Ok(Some(pair)) => {
                if push(&mut self.pairs, pair).is_err() {
                    return Err(self.end(WriteFault::OutOfMemory));
                }
                Ok(())
            }
            Ok(None) => Err(WriteError::NotUtf8),
            Err(_) => Err(self.end(WriteFault::OutOfMemory)),
        }
    }

    fn try_drop_batch(&mut self) -> Result<(), WriteError>
        ensures { w.DropsBatch self.old self.new result }
    {
        self.try_drop_row()?;
        self.rows = Items::new(self.alloc);
        self.pairs = Items::new(self.alloc);
        Ok(())
    }

    // Takes the open table out of the session. The caller then sets `stage`.
    fn take_table(&mut self) -> Result<OpenTable, WriteError>
        ensures { w.TakesTableOut self.old self.new result }
    {
        match mem::replace(&mut self.stage, Stage::New) {
            Stage::New => Err(WriteError::Misuse),
            Stage::Open(table) => Ok(table),
            Stage::Ended(ready) => {
                self.stage = Stage::Ended(ready);
                Err(WriteError::Refused(WriteFault::Failed))
            }
        }
    }

    fn try_send(&mut self) -> Result<(), WriteError>
        ensures { w.SendsRows self.old self.new result }
    {
        let table = self.take_table()?;
        let rows = mem::replace(&mut self.rows, Items::new(self.alloc));
        let pairs = mem::replace(&mut self.pairs, Items::new(self.alloc));
        let (stage, sent) = table.send(&BatchRows { pairs, rows });
        self.stage = stage;
        Ok(sent?)
    }

    fn try_send_columns(&mut self, batch: &ReadBatch) -> Result<(), WriteError>
        ensures { w.SendsColumns batch.now self.old self.new result }
    {
        let table = self.take_table()?;
        let (columns, pairs) = batch.parts();
        let Ok(pairs) = pairs.clone() else {
            self.stage = Stage::Ended(table.into_ready());
            return Err(WriteError::Refused(WriteFault::OutOfMemory));
        };
        let (stage, sent) = table.send_columns(columns, pairs);
        self.stage = stage;
        Ok(sent?)
    }

    // The head and the body of a batch, if the writer is open and the numbers are those of a head.
    fn copy_parts(
        &mut self,
        rows: i64,
        nodes: &[i64],
        buffers: &[i64],
        body: &[u8],
    ) -> Result<(BatchHead, Vec<u8>), WriteError>
        ensures open { OnOk result (self.new ≡ self.old) }
        ensures parts { IfOk result
            (λ parts. IsHead rows nodes.now buffers.now parts.0 × (parts.1.items ≡ body.now)) }
        ensures refused { IfErr result (λ e. w.OnStage self.old.stage
            (λ _. w.LacksHead rows nodes.now buffers.now self.old self.new (Err e))
            self.old self.new (Err e)) }
    {
        self.stage.open()?;
        let head = head_of(self.alloc, rows, nodes, buffers);
        let (Ok(head), Ok(body)) = (head, body.to_vec(self.alloc)) else {
            return Err(self.end(WriteFault::OutOfMemory));
        };
        match head {
            Some(head) => Ok((head, body)),
            None => Err(WriteError::Misuse),
        }
    }

    // The error of buffers that a reader refuses. If memory ran out, nothing more is written.
    fn invalid(&mut self, fault: Fault) -> WriteError
        ensures { w.RefusesInvalid fault self.old self.new result }
    {
        match fault {
            Fault::OutOfMemory => self.end(WriteFault::OutOfMemory),
            fault => WriteError::Invalid(fault),
        }
    }

    fn try_send_buffers(
        &mut self,
        rows: i64,
        nodes: &[i64],
        buffers: &[i64],
        body: &[u8],
    ) -> Result<(), WriteError>
        ensures { w.SendsBuffers rows nodes.now buffers.now body.now self.old self.new result }
    {
        let (head, body) = self.copy_parts(rows, nodes, buffers, body)?;
        let table = self.take_table()?;
        match table.read_batch(self.alloc, head, body) {
            Ok(batch) => {
                let (stage, sent) = table.send_columns(&batch, Items::new(self.alloc));
                self.stage = stage;
                Ok(sent?)
            }
            Err(fault) => {
                self.stage = Stage::Open(table);
                Err(self.invalid(fault))
            }
        }
    }

    fn try_give_dictionary(
        &mut self,
        id: i64,
        rows: i64,
        nodes: &[i64],
        buffers: &[i64],
        body: &[u8],
    ) -> Result<(), WriteError>
        ensures { w.GivesDictionary id rows nodes.now buffers.now body.now self.old self.new
            result }
    {
        let (head, body) = self.copy_parts(rows, nodes, buffers, body)?;
        let mut table = self.take_table()?;
        let given = table.give(self.alloc, id, head, body);
        self.stage = Stage::Open(table);
        match given {
            Ok(()) => Ok(()),
            Err(fault) => Err(self.invalid(fault)),
        }
    }

    fn try_copy_canonical(
        &self,
        batch: &ReadBatch,
        bytes: &mut [u8],
        numbers: &mut [i64],
    ) -> Result<CanonicalSize, WriteError>
        ensures { w.CopiesRead self.now.stage batch.now bytes.old bytes.new numbers.old numbers.new
            result }
    {
        let table = self.stage.open()?;
        let (columns, _) = batch.parts();
        Ok(table.copy_canonical(columns, bytes, numbers)?)
    }

    fn try_copy_dictionary(
        &self,
        id: i64,
        bytes: &mut [u8],
        numbers: &mut [i64],
    ) -> Result<Option<CanonicalSize>, WriteError>
        ensures { w.CopiesLast self.now.stage id bytes.old bytes.new numbers.old numbers.new
            result }
    {
        Ok(self.stage.open()?.copy_dictionary(id, bytes, numbers)?)
    }

    fn try_finish(&mut self) -> Result<(), WriteError>
        ensures { w.Finishes self.old self.new result }
    {
        let table = self.take_table()?;
        if !self.rows.is_empty()
            || !self.pairs.is_empty()
            || !self.cells.is_empty()
            || !self.nestings.is_empty()
        {
            self.stage = Stage::Open(table);
            return Err(WriteError::Misuse);
        }
        let (ready, ended) = table.finish();
        self.stage = Stage::Ended(ready);
        Ok(ended?)
    }

    // Returns the status of an answer, and keeps its error unless it is W10.
    fn report(&mut self, answer: Result<(), WriteError>) -> u32
        ensures { w.IsStatusOf self.old answer self.new result }
    {
        let Err(error) = answer else {
            return 0;
        };
        let number = error.number();
        if !error.is_repeated() {
            self.error = Some(error);
        }
        number
    }
}

impl WriteSession {
    /// Creates a writer without a schema. All that it makes is within `limits`. It takes no memory.
    pub fn new(alloc: Global, limits: Limits) -> WriteSession
        ensures { w.IsNew limits result }
    {
        WriteSession {
            limits,
            stage: Stage::New,
            front: Ready::new(Vec::new(alloc)),
            cells: Items::new(alloc),
            nestings: Items::new(alloc),
            rows: Items::new(alloc),
            pairs: Items::new(alloc),
            error: None,
            alloc,
        }
    }

    /// Begins the stream of the schema that a JSON text states, as `schema_from_json`. Returns 0 or
    /// the number of the error. X6, W1 and W6 leave the writer as it was; W9 and W11 end it. It is
    /// a misuse if the stream has begun.
    pub fn begin(&mut self, text: &[u8]) -> u32
        ensures { w.ReportsStatus (w.BeginsSession text.now) self.old self.new result }
    {
        let answer = self.try_begin(text);
        self.report(answer)
    }

    /// Adds a null cell. Returns 0, or the number of the error. W11 ends the writer.
    pub fn add_null(&mut self) -> u32
        ensures { w.ReportsStatus (w.Adds Value.Null) self.old self.new result }
    {
        let answer = self.try_add(Value::Null);
        self.report(answer)
    }

    /// Adds a boolean cell. Returns as `add_null`.
    pub fn add_bool(&mut self, value: bool) -> u32
        ensures { w.ReportsStatus (w.Adds (Value.Bool value)) self.old self.new result }
    {
        let answer = self.try_add(Value::Bool(value));
        self.report(answer)
    }

    /// Adds a cell that is a signed integer, a date, a time, a timestamp or a duration. Returns as
    /// `add_null`.
    pub fn add_int(&mut self, value: i64) -> u32
        ensures { w.ReportsStatus (w.Adds (Value.Int value)) self.old self.new result }
    {
        let answer = self.try_add(Value::Int(value));
        self.report(answer)
    }

    /// Adds a cell that is an unsigned integer. Returns as `add_null`.
    pub fn add_uint(&mut self, value: u64) -> u32
        ensures { w.ReportsStatus (w.Adds (Value.UInt value)) self.old self.new result }
    {
        let answer = self.try_add(Value::UInt(value));
        self.report(answer)
    }

    /// Adds a cell with a copy of the bytes. Returns as `add_null`.
    pub fn add_bytes(&mut self, bytes: &[u8]) -> u32
        ensures { w.ReportsStatus (w.Adds (Value.Bytes bytes.now)) self.old self.new result }
    {
        let answer = self.try_add_bytes(bytes);
        self.report(answer)
    }

    /// Adds a cell with a copy of the text. Returns as `add_null`, or 66 if the text is not UTF-8.
    pub fn add_text(&mut self, text: &[u8]) -> u32
        ensures { w.ReportsStatus (w.AddsText text.now) self.old self.new result }
    {
        let answer = self.try_add_text(text);
        self.report(answer)
    }

    /// Begins a list or a struct, whose cells follow. It is a misuse if 64 lists and structs are
    /// open. Returns as `add_null`.
    pub fn begin_cell(&mut self, kind: Nesting) -> u32
        ensures { w.ReportsStatus (w.BeginsCell kind) self.old self.new result }
    {
        let answer = self.try_begin_cell(kind);
        self.report(answer)
    }

    /// Ends the list or struct that was begun last. It is a misuse if there is none. Returns as
    /// `add_null`.
    pub fn end_cell(&mut self) -> u32
        ensures { w.ReportsStatus w.EndsCell self.old self.new result }
    {
        let answer = self.try_end_cell();
        self.report(answer)
    }

    /// Ends the row, which is then pending. It is a misuse inside a list or struct. Returns 0, or
    /// the number of the error: for W2 to W5 the row is dropped, and the pending rows remain. W11
    /// ends the writer.
    pub fn end_row(&mut self) -> u32
        ensures { w.ReportsStatus w.EndsRow self.old self.new result }
    {
        let answer = self.try_end_row();
        self.report(answer)
    }

    /// Drops the cells of the row that has not ended, with the lists and structs that were begun in
    /// it. The pending rows remain. Returns 0, or the number of the error.
    pub fn drop_row(&mut self) -> u32
        ensures { w.ReportsStatus w.DropsRow self.old self.new result }
    {
        let answer = self.try_drop_row();
        self.report(answer)
    }

    /// Adds a pair of key and value to those that are sent with the pending rows. Their limits are
    /// checked by `send`. Returns as `add_null`, or 66 if one of the texts is not UTF-8.
    pub fn add_pair(&mut self, key: &[u8], value: &[u8]) -> u32
        ensures { w.ReportsStatus (w.AddsPair key.now value.now) self.old self.new result }
    {
        let answer = self.try_add_pair(key, value);
        self.report(answer)
    }

    /// Drops the pending rows and pairs, and the row that has not ended. Returns as `drop_row`.
    pub fn drop_batch(&mut self) -> u32
        ensures { w.ReportsStatus w.DropsBatch self.old self.new result }
    {
        let answer = self.try_drop_batch();
        self.report(answer)
    }

    /// Sends the pending rows as one batch with the pending pairs, as `StreamWriter::write_batch`.
    /// Returns 0, or the number of the error: W6, W7 and W8, after which the writer goes on, and W9
    /// and W11, which end it. The pending rows and pairs are dropped in all cases.
    pub fn send(&mut self) -> u32
        ensures { w.ReportsStatus w.SendsRows self.old self.new result }
    {
        let answer = self.try_send();
        self.report(answer)
    }

    /// Sends a batch that was read, with its pairs, as `StreamWriter::write_columns`. Returns 0, or
    /// the number of the error: W2 to W8, after which the writer goes on, and W9 and W11, which end
    /// it. The pending rows and pairs remain.
    pub fn send_columns(&mut self, batch: &ReadBatch) -> u32
        ensures { w.ReportsStatus (w.SendsColumns batch.now) self.old self.new result }
    {
        let answer = self.try_send_columns(batch);
        self.report(answer)
    }

    /// Copies the body of the message that `send_columns` would send for a batch that was read, and
    /// its nodes and the ranges of its buffers, as `StreamWriter::copy_canonical`. Returns the room
    /// that they take, or the number of the error: W2 to W8 and W11. Nothing is sent, and the
    /// writer goes on after each error.
    pub fn copy_canonical(
        &mut self,
        batch: &ReadBatch,
        bytes: &mut [u8],
        numbers: &mut [i64],
    ) -> Result<CanonicalSize, u32>
        ensures { w.ReportsCopy batch.now bytes.old bytes.new numbers.old numbers.new self.old
            self.new result }
    {
        match self.try_copy_canonical(batch, bytes, numbers) {
            Ok(size) => Ok(size),
            Err(error) => Err(self.report(Err(error))),
        }
    }

    /// Gives the values of the dictionary with this id, in place of those that were given before: a
    /// batch of `rows` rows and one column, whose nodes, buffers and body are as in a message
    /// (Message.fbs, DictionaryBatch). Indices in what `send_buffers` sends refer to them. Nothing
    /// is sent. `nodes` has for a node its slots and nulls, and `buffers` for a buffer its offset
    /// in the body and its length in bytes.
    ///
    /// Returns 0, or the number of the error, after which what was given remains: F25 if no field
    /// of the schema has the id; F26 to F34 if a reader refuses the values; a misuse if `nodes` or
    /// `buffers` has an odd length; W11, which ends the writer.
    pub fn give_dictionary(
        &mut self,
        id: i64,
        rows: i64,
        nodes: &[i64],
        buffers: &[i64],
        body: &[u8],
    ) -> u32
        ensures { w.ReportsStatus
            (w.GivesDictionary id rows nodes.now buffers.now body.now) self.old self.new result }
    {
        let answer = self.try_give_dictionary(id, rows, nodes, buffers, body);
        self.report(answer)
    }

    /// Sends one batch of `rows` rows, whose nodes, buffers and body are as in a message
    /// (Message.fbs, RecordBatch) and as in `give_dictionary`. It is checked as a reader checks a
    /// batch, and sent as `send_columns` sends one, without pairs. Indices refer to the values that
    /// were given last. Pending rows and pairs remain.
    ///
    /// Returns 0, or the number of the error: F26 to F34 if a reader refuses the batch; a misuse if
    /// `nodes` or `buffers` has an odd length; W2 to W9 and W11 as `send_columns`.
    pub fn send_buffers(&mut self, rows: i64, nodes: &[i64], buffers: &[i64], body: &[u8]) -> u32
        ensures { w.ReportsStatus
            (w.SendsBuffers rows nodes.now buffers.now body.now) self.old self.new result }
    {
        let answer = self.try_send_buffers(rows, nodes, buffers, body);
        self.report(answer)
    }

    /// Returns how often a dictionary with this id was sent, at most 2^64 - 1: 0 before the schema
    /// and after the end.
    pub fn times_sent(&self, id: i64) -> u64
        ensures { result ≡ w.times_sent_by self.now.stage id }
    {
        match &self.stage {
            Stage::Open(table) => table.times_sent(id),
            Stage::New | Stage::Ended(_) => 0,
        }
    }

    /// Copies the values of the last dictionary with this id that was sent, as
    /// `StreamWriter::copy_dictionary`. Returns `None` if none was sent, or the number of the
    /// error: W6, W8 and W11. Nothing is sent, and the writer goes on after each error.
    pub fn copy_dictionary(
        &mut self,
        id: i64,
        bytes: &mut [u8],
        numbers: &mut [i64],
    ) -> Result<Option<CanonicalSize>, u32>
        ensures { w.ReportsDictionary id bytes.old bytes.new numbers.old numbers.new self.old
            self.new result }
    {
        match self.try_copy_dictionary(id, bytes, numbers) {
            Ok(dictionary) => Ok(dictionary),
            Err(error) => Err(self.report(Err(error))),
        }
    }

    /// Sends the end-of-stream mark, and ends the writer. It is a misuse if rows, pairs or cells
    /// are pending. Returns 0, or the number of the error: W9 ends the writer too.
    pub fn finish(&mut self) -> u32
        ensures { w.ReportsStatus w.Finishes self.old self.new result }
    {
        let answer = self.try_finish();
        self.report(answer)
    }

    // Moves the bytes that were written to `front`, if that is empty.
    fn gather(&mut self)
        ensures { w.Gathers self.old self.new }
    {
        if self.front.len() == 0 {
            self.front = self.stage.take_bytes(self.alloc);
        }
    }

    /// Returns the number of bytes that one call of `take` can move. It is 0 only if all bytes that
    /// were written are taken.
    pub fn ready(&mut self) -> usize
        ensures { w.CountsReady self.old self.new result }
    {
        self.gather();
        self.front.len()
    }

    /// Moves the first of the bytes that were written and not taken to the beginning of `target`.
    /// Returns their number: the smaller of `ready` and the length of `target`.
    pub fn take(&mut self, target: &mut [u8]) -> usize
        ensures { w.TakesBytes self.old self.new target.old target.new result }
    {
        self.gather();
        self.front.take(target)
    }

    /// Returns the last error as one line without a line feed, as in `W4 OutOfRange at row 2 path
    /// 0`, or `None` before an error. Errors: `OutOfMemory` only.
    pub fn error_text(&self) -> Result<Option<String>, Fault>
        ensures { w.GivesErrorLine self.now.error result }
    {
        match &self.error {
            None => Ok(None),
            Some(error) => match error.to_string(self.alloc) {
                Ok(text) => Ok(Some(text)),
                Err(_) => Err(Fault::OutOfMemory),
            },
        }
    }
}

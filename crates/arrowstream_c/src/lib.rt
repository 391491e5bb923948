//! Arrow IPC streams for C, and for each language that calls C: a reader, its batches and a writer
//! as opaque pointers. `include/arrowstream.h` is the header.
//!
//! Every export that takes a pointer requires what the pointer owns, and returns it at the value
//! that its clause names. A null pointer owns nothing; the answer is then `MISUSE` or 0. C makes
//! one call at a time on each reader, batch and writer. A batch may pass to another thread.
#![tactic(auto)]

ghost use Rattle.std.specs.Prelude.{◌≡◌, ⊤, None, Option};
ghost use Rattle.std.specs.Borrow.{sem};
ghost use Rattle.ipc_stream_session.specs.declared.batch.ReadBatch.{ReadBatch};
ghost use Rattle.ipc_stream_session.specs.declared.session.ReadSession.{ReadSession};
ghost use Rattle.ipc_stream_session.specs.declared.write_session.WriteSession.{WriteSession};
ghost use Rattle.arrowstream_c.specs.AtNull.{IsNowhere, RefusesText, TakesNothing};
ghost use Rattle.arrowstream_c.specs.Calls.{AreRows, AreColumns, ClonesBatch, Closes, CopiesBuffer};
ghost use Rattle.arrowstream_c.specs.Calls.{CopiesFieldText, CopiesLine, CopiesPairs, CopiesSchema};
ghost use Rattle.arrowstream_c.specs.Calls.{DescribesColumn, DescribesField, Feeds, OpensReader};
ghost use Rattle.arrowstream_c.specs.Calls.{TakesBack, TakesBatch};
ghost use Rattle.arrowstream_c.specs.Handles.{OfHandle, OfHandles, RefusesMisuse, batch_or_null};
ghost use Rattle.arrowstream_c.specs.Handles.{misuse, reader_or_null, writer_or_null};
ghost use Rattle.arrowstream_c.specs.Numbers.{SetsStandard};
ghost use Rattle.arrowstream_c.specs.WriterCalls as w;

mod answers;
mod at_null;
mod batch;
mod batch_calls;
mod block;
mod blocks;
mod reader;
mod reader_calls;
mod writer;
mod writer_calls;

use answers::{Column, FieldNumbers, MISUSE, Progress, ReadLimits};
use batch::BatchHandle;
use block::Block;
use ipc_stream_session::{ReadBatch, ReadSession, WriteSession};
use reader::ReaderHandle;
use std::alloc::Global;
use std::ptr::null_mut;
use writer::WriterHandle;

/// Returns the version of the interface: the major number times 65,536, and the minor number.
#[unsafe(no_mangle)]
pub extern "C" fn arrowstream_version() -> u32
    ensures { result ≡ 1 }
{
    1
}

/// Sets limits that fit what is written in practice, those of `Limits::standard`. Returns 0, or
/// `MISUSE` if `size` is too small.
#[unsafe(no_mangle)]
pub extern "C" fn arrowstream_limits_standard(out: &mut ReadLimits) -> u32
    ensures { SetsStandard out.old out.new result }
{
    answers::set_standard(out)
}

/// Makes a reader at the beginning of a stream, and sets `out` to it, or to null if memory ran out
/// or `size` is too small. A limit above its maximum counts as the maximum.
#[unsafe(no_mangle)]
pub extern "C" fn arrowstream_reader_open(alloc: Global, limits: &ReadLimits, out: &mut *mut u8)
    ensures* { ∃ₛ (λ (made : Option ReadSession). sem 𝓛 (reader_or_null out.new made)
        ∗ ⌜ OpensReader limits.now made ⌝) }
{
    let ReaderHandle { at } = ReaderHandle::fresh(alloc, limits);
    *out = at;
}

/// Frees a reader. Batches that were taken from it remain.
#[unsafe(no_mangle)]
pub unsafe extern "C" fn arrowstream_reader_free(alloc: Global, reader: *mut u8)
    ghost was: { Option ReadSession }
    requires* { sem 𝓛 (reader_or_null reader was) }
{
    if reader.is_null() {
        return;
    }
    reader_calls::free_reader(Block {
        ptr: reader as *mut ReadSession,
        alloc,
    });
}

/// Drops the batch that was not taken, and takes a beginning of the bytes, up to the first arrival.
/// Returns 0, or the number of the refusal.
#[unsafe(no_mangle)]
pub unsafe extern "C" fn arrowstream_reader_feed(
    reader: *mut u8,
    bytes: &[u8],
    out: &mut Progress,
) -> u32
    ghost was: { Option ReadSession }
    requires* { sem 𝓛 (reader_or_null reader was) }
    ensures* { ∃ₛ (λ (is : Option ReadSession). sem 𝓛 (reader_or_null reader is)
        ∗ ⌜ OfHandle (λ was is. Feeds was bytes.now is out.old out.new result)
        (IsNowhere out.old out.new result) was is ⌝) }
{
    if reader.is_null() {
        return at_null::no_progress(out);
    }
    reader_calls::feed(&mut *(reader as *mut ReadSession), bytes, out)
}

/// Ends the input. Returns 0, or the number of the refusal.
#[unsafe(no_mangle)]
pub unsafe extern "C" fn arrowstream_reader_close(reader: *mut u8, out: &mut Progress) -> u32
    ghost was: { Option ReadSession }
    requires* { sem 𝓛 (reader_or_null reader was) }
    ensures* { ∃ₛ (λ (is : Option ReadSession). sem 𝓛 (reader_or_null reader is)
        ∗ ⌜ OfHandle (λ was is. Closes was is out.old out.new result)
        (IsNowhere out.old out.new result) was is ⌝) }
{
    if reader.is_null() {
        return at_null::no_progress(out);
    }
    reader_calls::close(&mut *(reader as *mut ReadSession), out)
}

/// Copies the schema as JSON text. Returns 0, `ABSENT` before the schema came, or 37 if memory ran
/// out.
#[unsafe(no_mangle)]
pub unsafe extern "C" fn arrowstream_reader_schema(
    reader: *mut u8,
    text: &mut [u8],
    wanted: &mut usize,
) -> u32
    ghost was: { Option ReadSession }
    requires* { sem 𝓛 (reader_or_null reader was) }
    ensures* { ∃ₛ (λ (is : Option ReadSession). sem 𝓛 (reader_or_null reader is)
        ∗ ⌜ OfHandle (λ was is. CopiesSchema was is text.old text.new wanted.new result)
        (RefusesText text.old text.new wanted.new result) was is ⌝) }
{
    if reader.is_null() {
        return at_null::no_text(text, wanted);
    }
    reader_calls::schema(&mut *(reader as *mut ReadSession), text, wanted)
}

/// Describes the field of the schema to which a path leads. Returns 0, or `ABSENT` before the
/// schema came, or if the path leads to no field.
#[unsafe(no_mangle)]
pub unsafe extern "C" fn arrowstream_reader_field(
    reader: *mut u8,
    path: &[u64],
    out: &mut FieldNumbers,
) -> u32
    ghost was: { Option ReadSession }
    requires* { sem 𝓛 (reader_or_null reader was) }
    ensures* { ∃ₛ (λ (is : Option ReadSession). sem 𝓛 (reader_or_null reader is)
        ∗ ⌜ OfHandle (λ was is. DescribesField was path.now is out.old out.new result)
        (RefusesMisuse out.old out.new result) was is ⌝) }
{
    if reader.is_null() {
        return at_null::no_field(out);
    }
    reader_calls::field(&mut *(reader as *mut ReadSession), path, out)
}

/// Copies a text of the field to which a path leads: 0 name, 1 format string, 2 format string of
/// the dictionary's values, 3 key and 4 value of a pair. Returns 0, or `ABSENT` if there is no such
/// field or text, or 37 if memory ran out.
#[unsafe(no_mangle)]
pub unsafe extern "C" fn arrowstream_reader_field_text(
    reader: *mut u8,
    path: &[u64],
    number: u32,
    pair: u64,
    text: &mut [u8],
    wanted: &mut usize,
) -> u32
    ghost was: { Option ReadSession }
    requires* { sem 𝓛 (reader_or_null reader was) }
    ensures* { ∃ₛ (λ (is : Option ReadSession). sem 𝓛 (reader_or_null reader is)
        ∗ ⌜ OfHandle (λ was is. CopiesFieldText was path.now number pair is text.old text.new
        wanted.new result)
        (RefusesText text.old text.new wanted.new result) was is ⌝) }
{
    if reader.is_null() {
        return at_null::no_text(text, wanted);
    }
    reader_calls::field_text(
        &mut *(reader as *mut ReadSession),
        path,
        number,
        pair,
        text,
        wanted,
    )
}

/// Copies the line of the first refusal. Returns 0, `ABSENT` before a refusal, or 37 if memory ran
/// out.
#[unsafe(no_mangle)]
pub unsafe extern "C" fn arrowstream_reader_line(
    reader: *mut u8,
    text: &mut [u8],
    wanted: &mut usize,
) -> u32
    ghost was: { Option ReadSession }
    requires* { sem 𝓛 (reader_or_null reader was) }
    ensures* { ∃ₛ (λ (is : Option ReadSession). sem 𝓛 (reader_or_null reader is)
        ∗ ⌜ OfHandle (λ was is. CopiesLine was is text.old text.new wanted.new result)
        (RefusesText text.old text.new wanted.new result) was is ⌝) }
{
    if reader.is_null() {
        return at_null::no_text(text, wanted);
    }
    reader_calls::line(&mut *(reader as *mut ReadSession), text, wanted)
}

/// Takes the batch that the last piece completed, and sets `out` to it. Returns 0. Without a batch
/// it returns `ABSENT`, and 37 if memory ran out; then the batch is dropped, and `out` is null.
#[unsafe(no_mangle)]
pub unsafe extern "C" fn arrowstream_reader_take(
    alloc: Global,
    reader: *mut u8,
    out: &mut *mut u8,
) -> u32
    ghost was: { Option ReadSession }
    requires* { sem 𝓛 (reader_or_null reader was) }
    ensures* { ∃ₛ (λ (is : Option ReadSession). ∃ₛ (λ (found : Option ReadBatch).
        sem 𝓛 (reader_or_null reader is) ∗ (sem 𝓛 (batch_or_null out.new found)
        ∗ ⌜ OfHandle (λ was is. TakesBatch was is found result)
        ((found ≡ None) × (result ≡ misuse)) was is ⌝))) }
{
    if reader.is_null() {
        *out = null_mut();
        return MISUSE;
    }
    let BatchHandle { at, status } = reader_calls::take(alloc, &mut *(reader as *mut ReadSession));
    *out = at;
    status
}

/// Takes a batch back, as `ReadSession::reuse` does: the handle ends, and the next body may be read
/// into the batch's memory.
#[unsafe(no_mangle)]
pub unsafe extern "C" fn arrowstream_reader_reuse(alloc: Global, reader: *mut u8, batch: *mut u8)
    ghost was: { Option ReadSession × Option ReadBatch }
    requires* { sem 𝓛 (reader_or_null reader was.0) ∗ sem 𝓛 (batch_or_null batch was.1) }
    ensures* { ∃ₛ (λ (is : Option ReadSession). sem 𝓛 (reader_or_null reader is)
        ∗ ⌜ OfHandle (TakesBack was.1) ⊤ was.0 is ⌝) }
{
    if reader.is_null() {
        arrowstream_batch_free(alloc, batch);
        return;
    }
    if batch.is_null() {
        return;
    }
    reader_calls::reuse(
        &mut *(reader as *mut ReadSession),
        Block {
            ptr: batch as *mut ReadBatch,
            alloc,
        },
    );
}

/// Sets `out` to another handle of the same batch, which shares its body. Returns 0, or 37 if
/// memory ran out; then `out` is null.
#[unsafe(no_mangle)]
pub unsafe extern "C" fn arrowstream_batch_clone(
    alloc: Global,
    batch: *mut u8,
    out: &mut *mut u8,
) -> u32
    ghost was: { Option ReadBatch }
    requires* { sem 𝓛 (batch_or_null batch was) }
    ensures* { ∃ₛ (λ (is : Option ReadBatch). ∃ₛ (λ (made : Option ReadBatch).
        sem 𝓛 (batch_or_null batch is) ∗ (sem 𝓛 (batch_or_null out.new made)
        ∗ ⌜ OfHandle (λ was is. ClonesBatch was is made result)
        ((made ≡ None) × (result ≡ misuse)) was is ⌝))) }
{
    if batch.is_null() {
        *out = null_mut();
        return MISUSE;
    }
    let BatchHandle { at, status } = batch_calls::share(alloc, &mut *(batch as *mut ReadBatch));
    *out = at;
    status
}

/// Frees a batch.
#[unsafe(no_mangle)]
pub unsafe extern "C" fn arrowstream_batch_free(alloc: Global, batch: *mut u8)
    ghost was: { Option ReadBatch }
    requires* { sem 𝓛 (batch_or_null batch was) }
{
    if batch.is_null() {
        return;
    }
    batch_calls::free_batch(Block {
        ptr: batch as *mut ReadBatch,
        alloc,
    });
}

/// Returns the number of rows.
#[unsafe(no_mangle)]
pub unsafe extern "C" fn arrowstream_batch_rows(batch: *mut u8) -> usize
    ghost was: { Option ReadBatch }
    requires* { sem 𝓛 (batch_or_null batch was) }
    ensures* { ∃ₛ (λ (is : Option ReadBatch). sem 𝓛 (batch_or_null batch is)
        ∗ ⌜ OfHandle (λ was is. AreRows was is result) (result ≡ 0) was is ⌝) }
{
    if batch.is_null() {
        return 0;
    }
    batch_calls::rows(&mut *(batch as *mut ReadBatch))
}

/// Returns the number of columns.
#[unsafe(no_mangle)]
pub unsafe extern "C" fn arrowstream_batch_columns(batch: *mut u8) -> usize
    ghost was: { Option ReadBatch }
    requires* { sem 𝓛 (batch_or_null batch was) }
    ensures* { ∃ₛ (λ (is : Option ReadBatch). sem 𝓛 (batch_or_null batch is)
        ∗ ⌜ OfHandle (λ was is. AreColumns was is result) (result ≡ 0) was is ⌝) }
{
    if batch.is_null() {
        return 0;
    }
    batch_calls::columns(&mut *(batch as *mut ReadBatch))
}

/// Copies the pairs of the batch's message as JSON text. Returns 0, or 37 if memory ran out.
#[unsafe(no_mangle)]
pub unsafe extern "C" fn arrowstream_batch_pairs(
    batch: *mut u8,
    text: &mut [u8],
    wanted: &mut usize,
) -> u32
    ghost was: { Option ReadBatch }
    requires* { sem 𝓛 (batch_or_null batch was) }
    ensures* { ∃ₛ (λ (is : Option ReadBatch). sem 𝓛 (batch_or_null batch is)
        ∗ ⌜ OfHandle (λ was is. CopiesPairs was is text.old text.new wanted.new result)
        (RefusesText text.old text.new wanted.new result) was is ⌝) }
{
    if batch.is_null() {
        return at_null::no_text(text, wanted);
    }
    batch_calls::pairs(&mut *(batch as *mut ReadBatch), text, wanted)
}

/// Describes the column to which a path leads. Returns 0, or `ABSENT` if it leads to no column.
#[unsafe(no_mangle)]
pub unsafe extern "C" fn arrowstream_batch_column(
    batch: *mut u8,
    path: &[u64],
    out: &mut Column,
) -> u32
    ghost was: { Option ReadBatch }
    requires* { sem 𝓛 (batch_or_null batch was) }
    ensures* { ∃ₛ (λ (is : Option ReadBatch). sem 𝓛 (batch_or_null batch is)
        ∗ ⌜ OfHandle (λ was is. DescribesColumn was path.now is out.old out.new result)
        (RefusesMisuse out.old out.new result) was is ⌝) }
{
    if batch.is_null() {
        return at_null::no_column(out);
    }
    batch_calls::column(&mut *(batch as *mut ReadBatch), path, out)
}

/// Copies a buffer of the column to which a path leads: 0 validity, 1 offsets, 2 values. Returns 0,
/// or `ABSENT` if it leads to no column, or if there is no buffer of this number.
#[unsafe(no_mangle)]
pub unsafe extern "C" fn arrowstream_batch_buffer(
    batch: *mut u8,
    path: &[u64],
    buffer: u32,
    bytes: &mut [u8],
    wanted: &mut usize,
) -> u32
    ghost was: { Option ReadBatch }
    requires* { sem 𝓛 (batch_or_null batch was) }
    ensures* { ∃ₛ (λ (is : Option ReadBatch). sem 𝓛 (batch_or_null batch is)
        ∗ ⌜ OfHandle (λ was is. CopiesBuffer was path.now buffer is bytes.old bytes.new wanted.new
        result)
        (RefusesText bytes.old bytes.new wanted.new result) was is ⌝) }
{
    if batch.is_null() {
        return at_null::no_text(bytes, wanted);
    }
    batch_calls::buffer(&mut *(batch as *mut ReadBatch), path, buffer, bytes, wanted)
}

/// Makes a writer without a schema, and sets `out` to it, or to null if memory ran out or `size` is
/// too small. A limit above its maximum counts as the maximum.
#[unsafe(no_mangle)]
pub extern "C" fn arrowstream_writer_open(alloc: Global, limits: &ReadLimits, out: &mut *mut u8)
    ensures* { ∃ₛ (λ (made : Option WriteSession). sem 𝓛 (writer_or_null out.new made)
        ∗ ⌜ w.OpensWriter limits.now made ⌝) }
{
    let WriterHandle { at } = WriterHandle::fresh(alloc, limits);
    *out = at;
}

/// Frees a writer.
#[unsafe(no_mangle)]
pub unsafe extern "C" fn arrowstream_writer_free(alloc: Global, writer: *mut u8)
    ghost was: { Option WriteSession }
    requires* { sem 𝓛 (writer_or_null writer was) }
{
    if writer.is_null() {
        return;
    }
    writer_calls::free_writer(Block {
        ptr: writer as *mut WriteSession,
        alloc,
    });
}

/// Begins the stream of the schema that a JSON text states. Returns 0, or the number of the error.
#[unsafe(no_mangle)]
pub unsafe extern "C" fn arrowstream_writer_schema(writer: *mut u8, text: &[u8]) -> u32
    ghost was: { Option WriteSession }
    requires* { sem 𝓛 (writer_or_null writer was) }
    ensures* { ∃ₛ (λ (is : Option WriteSession). sem 𝓛 (writer_or_null writer is)
        ∗ ⌜ OfHandle (λ was is. w.BeginsStream was text.now is result) (result ≡ misuse) was is ⌝) }
{
    if writer.is_null() {
        return MISUSE;
    }
    writer_calls::begin(&mut *(writer as *mut WriteSession), text)
}

/// Adds a null cell. Returns 0, or the number of the error.
#[unsafe(no_mangle)]
pub unsafe extern "C" fn arrowstream_writer_null(writer: *mut u8) -> u32
    ghost was: { Option WriteSession }
    requires* { sem 𝓛 (writer_or_null writer was) }
    ensures* { ∃ₛ (λ (is : Option WriteSession). sem 𝓛 (writer_or_null writer is)
        ∗ ⌜ OfHandle (λ was is. w.AddsNull was is result) (result ≡ misuse) was is ⌝) }
{
    if writer.is_null() {
        return MISUSE;
    }
    writer_calls::add_null(&mut *(writer as *mut WriteSession))
}

/// Adds a boolean cell: 0 is false, and each other number is true. Returns 0, or the number of the
/// error.
#[unsafe(no_mangle)]
pub unsafe extern "C" fn arrowstream_writer_bool(writer: *mut u8, value: u32) -> u32
    ghost was: { Option WriteSession }
    requires* { sem 𝓛 (writer_or_null writer was) }
    ensures* { ∃ₛ (λ (is : Option WriteSession). sem 𝓛 (writer_or_null writer is)
        ∗ ⌜ OfHandle (λ was is. w.AddsBool was value is result) (result ≡ misuse) was is ⌝) }
{
    if writer.is_null() {
        return MISUSE;
    }
    writer_calls::add_bool(&mut *(writer as *mut WriteSession), value)
}

/// Adds a cell that is a signed integer, a date, a time, a timestamp or a duration. Returns 0, or
/// the number of the error.
#[unsafe(no_mangle)]
pub unsafe extern "C" fn arrowstream_writer_int(writer: *mut u8, value: i64) -> u32
    ghost was: { Option WriteSession }
    requires* { sem 𝓛 (writer_or_null writer was) }
    ensures* { ∃ₛ (λ (is : Option WriteSession). sem 𝓛 (writer_or_null writer is)
        ∗ ⌜ OfHandle (λ was is. w.AddsInt was value is result) (result ≡ misuse) was is ⌝) }
{
    if writer.is_null() {
        return MISUSE;
    }
    writer_calls::add_int(&mut *(writer as *mut WriteSession), value)
}

/// Adds a cell that is an unsigned integer. Returns 0, or the number of the error.
#[unsafe(no_mangle)]
pub unsafe extern "C" fn arrowstream_writer_uint(writer: *mut u8, value: u64) -> u32
    ghost was: { Option WriteSession }
    requires* { sem 𝓛 (writer_or_null writer was) }
    ensures* { ∃ₛ (λ (is : Option WriteSession). sem 𝓛 (writer_or_null writer is)
        ∗ ⌜ OfHandle (λ was is. w.AddsUInt was value is result) (result ≡ misuse) was is ⌝) }
{
    if writer.is_null() {
        return MISUSE;
    }
    writer_calls::add_uint(&mut *(writer as *mut WriteSession), value)
}

/// Adds a cell of bytes. Returns 0, or the number of the error.
#[unsafe(no_mangle)]
pub unsafe extern "C" fn arrowstream_writer_bytes(writer: *mut u8, bytes: &[u8]) -> u32
    ghost was: { Option WriteSession }
    requires* { sem 𝓛 (writer_or_null writer was) }
    ensures* { ∃ₛ (λ (is : Option WriteSession). sem 𝓛 (writer_or_null writer is)
        ∗ ⌜ OfHandle (λ was is. w.AddsBytes was bytes.now is result) (result ≡ misuse) was is ⌝) }
{
    if writer.is_null() {
        return MISUSE;
    }
    writer_calls::add_bytes(&mut *(writer as *mut WriteSession), bytes)
}

/// Adds a cell of UTF-8 text. Returns 0, or the number of the error.
#[unsafe(no_mangle)]
pub unsafe extern "C" fn arrowstream_writer_text(writer: *mut u8, text: &[u8]) -> u32
    ghost was: { Option WriteSession }
    requires* { sem 𝓛 (writer_or_null writer was) }
    ensures* { ∃ₛ (λ (is : Option WriteSession). sem 𝓛 (writer_or_null writer is)
        ∗ ⌜ OfHandle (λ was is. w.AddsText was text.now is result) (result ≡ misuse) was is ⌝) }
{
    if writer.is_null() {
        return MISUSE;
    }
    writer_calls::add_text(&mut *(writer as *mut WriteSession), text)
}

/// Begins a list. Returns 0, or the number of the error.
#[unsafe(no_mangle)]
pub unsafe extern "C" fn arrowstream_writer_begin_list(writer: *mut u8) -> u32
    ghost was: { Option WriteSession }
    requires* { sem 𝓛 (writer_or_null writer was) }
    ensures* { ∃ₛ (λ (is : Option WriteSession). sem 𝓛 (writer_or_null writer is)
        ∗ ⌜ OfHandle (λ was is. w.BeginsList was is result) (result ≡ misuse) was is ⌝) }
{
    if writer.is_null() {
        return MISUSE;
    }
    writer_calls::begin_list(&mut *(writer as *mut WriteSession))
}

/// Begins a struct. Returns 0, or the number of the error.
#[unsafe(no_mangle)]
pub unsafe extern "C" fn arrowstream_writer_begin_struct(writer: *mut u8) -> u32
    ghost was: { Option WriteSession }
    requires* { sem 𝓛 (writer_or_null writer was) }
    ensures* { ∃ₛ (λ (is : Option WriteSession). sem 𝓛 (writer_or_null writer is)
        ∗ ⌜ OfHandle (λ was is. w.BeginsStruct was is result) (result ≡ misuse) was is ⌝) }
{
    if writer.is_null() {
        return MISUSE;
    }
    writer_calls::begin_struct(&mut *(writer as *mut WriteSession))
}

/// Ends the list or struct that was begun last. Returns 0, or the number of the error.
#[unsafe(no_mangle)]
pub unsafe extern "C" fn arrowstream_writer_end(writer: *mut u8) -> u32
    ghost was: { Option WriteSession }
    requires* { sem 𝓛 (writer_or_null writer was) }
    ensures* { ∃ₛ (λ (is : Option WriteSession). sem 𝓛 (writer_or_null writer is)
        ∗ ⌜ OfHandle (λ was is. w.EndsCell was is result) (result ≡ misuse) was is ⌝) }
{
    if writer.is_null() {
        return MISUSE;
    }
    writer_calls::end_cell(&mut *(writer as *mut WriteSession))
}

/// Ends the row. Returns 0, or the number of the error.
#[unsafe(no_mangle)]
pub unsafe extern "C" fn arrowstream_writer_row(writer: *mut u8) -> u32
    ghost was: { Option WriteSession }
    requires* { sem 𝓛 (writer_or_null writer was) }
    ensures* { ∃ₛ (λ (is : Option WriteSession). sem 𝓛 (writer_or_null writer is)
        ∗ ⌜ OfHandle (λ was is. w.EndsRow was is result) (result ≡ misuse) was is ⌝) }
{
    if writer.is_null() {
        return MISUSE;
    }
    writer_calls::end_row(&mut *(writer as *mut WriteSession))
}

/// Drops the row that has not ended, with its lists and structs. Returns 0, or the number of the
/// error.
#[unsafe(no_mangle)]
pub unsafe extern "C" fn arrowstream_writer_drop_row(writer: *mut u8) -> u32
    ghost was: { Option WriteSession }
    requires* { sem 𝓛 (writer_or_null writer was) }
    ensures* { ∃ₛ (λ (is : Option WriteSession). sem 𝓛 (writer_or_null writer is)
        ∗ ⌜ OfHandle (λ was is. w.DropsRow was is result) (result ≡ misuse) was is ⌝) }
{
    if writer.is_null() {
        return MISUSE;
    }
    writer_calls::drop_row(&mut *(writer as *mut WriteSession))
}

/// Adds a pair of key and value to those that are sent with the pending rows. Returns 0, or the
/// number of the error.
#[unsafe(no_mangle)]
pub unsafe extern "C" fn arrowstream_writer_pair(writer: *mut u8, key: &[u8], value: &[u8]) -> u32
    ghost was: { Option WriteSession }
    requires* { sem 𝓛 (writer_or_null writer was) }
    ensures* { ∃ₛ (λ (is : Option WriteSession). sem 𝓛 (writer_or_null writer is)
        ∗ ⌜ OfHandle (λ was is. w.AddsPair was key.now value.now is result)
        (result ≡ misuse) was is ⌝) }
{
    if writer.is_null() {
        return MISUSE;
    }
    writer_calls::add_pair(&mut *(writer as *mut WriteSession), key, value)
}

/// Drops the pending rows and pairs, and the row that has not ended. Returns 0, or the number of
/// the error.
#[unsafe(no_mangle)]
pub unsafe extern "C" fn arrowstream_writer_drop_batch(writer: *mut u8) -> u32
    ghost was: { Option WriteSession }
    requires* { sem 𝓛 (writer_or_null writer was) }
    ensures* { ∃ₛ (λ (is : Option WriteSession). sem 𝓛 (writer_or_null writer is)
        ∗ ⌜ OfHandle (λ was is. w.DropsBatch was is result) (result ≡ misuse) was is ⌝) }
{
    if writer.is_null() {
        return MISUSE;
    }
    writer_calls::drop_batch(&mut *(writer as *mut WriteSession))
}

/// Sends the pending rows as one batch with the pending pairs. Returns 0, or the number of the
/// error.
#[unsafe(no_mangle)]
pub unsafe extern "C" fn arrowstream_writer_send(writer: *mut u8) -> u32
    ghost was: { Option WriteSession }
    requires* { sem 𝓛 (writer_or_null writer was) }
    ensures* { ∃ₛ (λ (is : Option WriteSession). sem 𝓛 (writer_or_null writer is)
        ∗ ⌜ OfHandle (λ was is. w.SendsRows was is result) (result ≡ misuse) was is ⌝) }
{
    if writer.is_null() {
        return MISUSE;
    }
    writer_calls::send(&mut *(writer as *mut WriteSession))
}

/// Sends the columns and pairs of a batch that was read as one batch. Returns 0, or the number of
/// the error.
#[unsafe(no_mangle)]
pub unsafe extern "C" fn arrowstream_writer_columns(writer: *mut u8, batch: *mut u8) -> u32
    ghost was: { Option WriteSession × Option ReadBatch }
    requires* { sem 𝓛 (writer_or_null writer was.0) ∗ sem 𝓛 (batch_or_null batch was.1) }
    ensures* { ∃ₛ (λ (is : Option WriteSession). ∃ₛ (λ (left : Option ReadBatch).
        sem 𝓛 (writer_or_null writer is) ∗ (sem 𝓛 (batch_or_null batch left)
        ∗ ⌜ OfHandles (λ was batch is left. w.SendsColumns was batch is left result)
        (result ≡ misuse) was.0 was.1 is left ⌝))) }
{
    if writer.is_null() {
        return MISUSE;
    }
    if batch.is_null() {
        return MISUSE;
    }
    writer_calls::send_columns(
        &mut *(writer as *mut WriteSession),
        &mut *(batch as *mut ReadBatch),
    )
}

/// Sends the end-of-stream mark. Returns 0, or the number of the error.
#[unsafe(no_mangle)]
pub unsafe extern "C" fn arrowstream_writer_finish(writer: *mut u8) -> u32
    ghost was: { Option WriteSession }
    requires* { sem 𝓛 (writer_or_null writer was) }
    ensures* { ∃ₛ (λ (is : Option WriteSession). sem 𝓛 (writer_or_null writer is)
        ∗ ⌜ OfHandle (λ was is. w.Finishes was is result) (result ≡ misuse) was is ⌝) }
{
    if writer.is_null() {
        return MISUSE;
    }
    writer_calls::finish(&mut *(writer as *mut WriteSession))
}

/// Returns the number of bytes that are ready.
#[unsafe(no_mangle)]
pub unsafe extern "C" fn arrowstream_writer_ready(writer: *mut u8) -> usize
    ghost was: { Option WriteSession }
    requires* { sem 𝓛 (writer_or_null writer was) }
    ensures* { ∃ₛ (λ (is : Option WriteSession). sem 𝓛 (writer_or_null writer is)
        ∗ ⌜ OfHandle (λ was is. w.AreReady was is result) (result ≡ 0) was is ⌝) }
{
    if writer.is_null() {
        return 0;
    }
    writer_calls::ready(&mut *(writer as *mut WriteSession))
}

/// Moves the first of the ready bytes to `bytes`. Returns their number.
#[unsafe(no_mangle)]
pub unsafe extern "C" fn arrowstream_writer_take(writer: *mut u8, bytes: &mut [u8]) -> usize
    ghost was: { Option WriteSession }
    requires* { sem 𝓛 (writer_or_null writer was) }
    ensures* { ∃ₛ (λ (is : Option WriteSession). sem 𝓛 (writer_or_null writer is)
        ∗ ⌜ OfHandle (λ was is. w.TakesBytes was is bytes.old bytes.new result)
        (TakesNothing bytes.old bytes.new result) was is ⌝) }
{
    if writer.is_null() {
        return at_null::none_taken(bytes);
    }
    writer_calls::take(&mut *(writer as *mut WriteSession), bytes)
}

/// Copies the line of the last error. Returns 0, `ABSENT` before an error, or 37 if memory ran out.
#[unsafe(no_mangle)]
pub unsafe extern "C" fn arrowstream_writer_line(
    writer: *mut u8,
    text: &mut [u8],
    wanted: &mut usize,
) -> u32
    ghost was: { Option WriteSession }
    requires* { sem 𝓛 (writer_or_null writer was) }
    ensures* { ∃ₛ (λ (is : Option WriteSession). sem 𝓛 (writer_or_null writer is)
        ∗ ⌜ OfHandle (λ was is. w.CopiesLine was is text.old text.new wanted.new result)
        (RefusesText text.old text.new wanted.new result) was is ⌝) }
{
    if writer.is_null() {
        return at_null::no_text(text, wanted);
    }
    writer_calls::error_line(&mut *(writer as *mut WriteSession), text, wanted)
}

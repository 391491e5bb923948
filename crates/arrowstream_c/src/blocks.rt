//! Batches and dictionaries in blocks of memory of the caller.
ghost use Rattle.std.specs.Prelude.{◌≡◌, Option};
ghost use Rattle.std.specs.Borrow.{sem};
ghost use Rattle.ipc_stream_session.specs.declared.batch.ReadBatch.{ReadBatch};
ghost use Rattle.ipc_stream_session.specs.declared.write_session.WriteSession.{WriteSession};
ghost use Rattle.arrowstream_c.specs.AtNull.{CopiesNothing};
ghost use Rattle.arrowstream_c.specs.Handles.{OfHandle, OfHandles, batch_or_null, misuse};
ghost use Rattle.arrowstream_c.specs.Handles.{writer_or_null};
ghost use Rattle.arrowstream_c.specs.WriterCalls as w;

use crate::answers::{Canonical, MISUSE};
use crate::{at_null, writer_calls};
use ipc_stream_session::{ReadBatch, WriteSession};

/// Gives the values of a dictionary to which indices in `arrowstream_writer_buffers` refer: the
/// rows, nodes, buffers and body of a batch of one column. Returns 0, or the number of the error.
#[unsafe(no_mangle)]
pub unsafe extern "C" fn arrowstream_writer_dictionary(
    writer: *mut u8,
    id: i64,
    rows: i64,
    nodes: &[i64],
    buffers: &[i64],
    body: &[u8],
) -> u32
    ghost was: { Option WriteSession }
    requires* { sem 𝓛 (writer_or_null writer was) }
    ensures* { ∃ₛ (λ (is : Option WriteSession). sem 𝓛 (writer_or_null writer is)
        ∗ ⌜ OfHandle (λ was is. w.GivesDictionary was id rows nodes.now buffers.now body.now is
        result)
        (result ≡ misuse) was is ⌝) }
{
    if writer.is_null() {
        return MISUSE;
    }
    writer_calls::give_dictionary(
        &mut *(writer as *mut WriteSession),
        id,
        rows,
        nodes,
        buffers,
        body,
    )
}

/// Sends the rows, nodes, buffers and body of a batch, if a reader accepts them. Returns 0, or the
/// number of the error.
#[unsafe(no_mangle)]
pub unsafe extern "C" fn arrowstream_writer_buffers(
    writer: *mut u8,
    rows: i64,
    nodes: &[i64],
    buffers: &[i64],
    body: &[u8],
) -> u32
    ghost was: { Option WriteSession }
    requires* { sem 𝓛 (writer_or_null writer was) }
    ensures* { ∃ₛ (λ (is : Option WriteSession). sem 𝓛 (writer_or_null writer is)
        ∗ ⌜ OfHandle (λ was is. w.SendsBuffers was rows nodes.now buffers.now body.now is result)
        (result ≡ misuse) was is ⌝) }
{
    if writer.is_null() {
        return MISUSE;
    }
    writer_calls::send_buffers(
        &mut *(writer as *mut WriteSession),
        rows,
        nodes,
        buffers,
        body,
    )
}

/// Returns how often a dictionary with this id was sent: 0 before the schema and after the end.
#[unsafe(no_mangle)]
pub unsafe extern "C" fn arrowstream_writer_times_sent(writer: *mut u8, id: i64) -> u64
    ghost was: { Option WriteSession }
    requires* { sem 𝓛 (writer_or_null writer was) }
    ensures* { ∃ₛ (λ (is : Option WriteSession). sem 𝓛 (writer_or_null writer is)
        ∗ ⌜ OfHandle (λ was is. w.CountsSent was id is result) (result ≡ 0) was is ⌝) }
{
    if writer.is_null() {
        return 0;
    }
    writer_calls::times_sent(&mut *(writer as *mut WriteSession), id)
}

/// Copies the values of the last dictionary with this id that was sent, as rows of one column, and
/// their node and the ranges of their buffers. Returns 0, or the number of the error.
#[unsafe(no_mangle)]
pub unsafe extern "C" fn arrowstream_writer_canonical_values(
    writer: *mut u8,
    id: i64,
    bytes: &mut [u8],
    numbers: &mut [i64],
    out: &mut Canonical,
) -> u32
    ghost was: { Option WriteSession }
    requires* { sem 𝓛 (writer_or_null writer was) }
    ensures* { ∃ₛ (λ (is : Option WriteSession). sem 𝓛 (writer_or_null writer is)
        ∗ ⌜ OfHandle (λ was is. w.CopiesDictionary was id is bytes.old bytes.new numbers.old
        numbers.new out.old out.new result)
        (CopiesNothing bytes.old bytes.new numbers.old numbers.new out.old out.new result)
        was is ⌝) }
{
    if writer.is_null() {
        return at_null::no_copy(bytes, numbers, out);
    }
    writer_calls::copy_dictionary(&mut *(writer as *mut WriteSession), id, bytes, numbers, out)
}

/// Copies the body of the message that `arrowstream_writer_columns` would send for a batch that was
/// read, and its nodes and the ranges of its buffers. Returns 0, or the number of the error.
#[unsafe(no_mangle)]
pub unsafe extern "C" fn arrowstream_writer_canonical(
    writer: *mut u8,
    batch: *mut u8,
    bytes: &mut [u8],
    numbers: &mut [i64],
    out: &mut Canonical,
) -> u32
    ghost was: { Option WriteSession × Option ReadBatch }
    requires* { sem 𝓛 (writer_or_null writer was.0) ∗ sem 𝓛 (batch_or_null batch was.1) }
    ensures* { ∃ₛ (λ (is : Option WriteSession). ∃ₛ (λ (left : Option ReadBatch).
        sem 𝓛 (writer_or_null writer is) ∗ (sem 𝓛 (batch_or_null batch left)
        ∗ ⌜ OfHandles (λ was batch is left. w.CopiesCanonical was batch is left bytes.old bytes.new
        numbers.old numbers.new out.old out.new result)
        (CopiesNothing bytes.old bytes.new numbers.old numbers.new out.old out.new result)
        was.0 was.1 is left ⌝))) }
{
    if writer.is_null() {
        return at_null::no_copy(bytes, numbers, out);
    }
    if batch.is_null() {
        return at_null::no_copy(bytes, numbers, out);
    }
    writer_calls::copy_canonical(
        &mut *(writer as *mut WriteSession),
        &mut *(batch as *mut ReadBatch),
        bytes,
        numbers,
        out,
    )
}

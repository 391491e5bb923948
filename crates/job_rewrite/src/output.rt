//! What the batches of a rewritten stream are written to.
ghost use Rattle.std.specs.Prelude.{◌≡◌, ℕ, IfErr, IfOk, None, Option, false};
ghost use Rattle.ipc_stream.specs.Writer.{Finishes, FinishFails, Writer};
ghost use Rattle.ipc_stream_read.specs.Found.{batch_rows};
ghost use Rattle.job_rewrite.specs.Outputs.{WritesBatch};

use ipc_device::Sink;
use ipc_model::{Items, Text, WriteFault};
use ipc_stream::{Batch, StreamWriter};

/// What became of a batch that was to be written.
#[derive(Debug, Drop)]
pub(crate) enum Written {
    /// All of its messages were sent.
    Whole,
    /// Its messages have more bytes than may be written. None of them was sent.
    NoRoom,
}

/// Takes the batches and the end of a rewritten stream, whose messages go to a sink.
pub(crate) trait Output<W: Sink> {
    /// The state of a writer over that sink.
    ghost writer: { Self → Writer };

    /// The number of bytes that may be written before the end-of-stream mark, if it is limited.
    ghost room: { Self → Option ℕ };

    /// Writes the messages of a batch with these pairs, if they have room.
    fn write(&mut self, batch: &Batch, pairs: Items<(Text, Text)>) -> Result<Written, WriteFault>
        requires works { (writer self.old).failed ≡ false }
        requires sink { (writer self.old).failures ≡ 0 }
        ensures writes { WritesBatch (writer self.old) (room self.old)
            (batch_rows (batch.now, pairs)) (writer self.new) (room self.new) result };

    /// Writes the end-of-stream mark, and flushes the sink.
    fn finish(self) -> Result<W, (WriteFault, W)>
        requires works { (writer self).failed ≡ false }
        ensures finished { IfOk result (λ sink. Finishes (writer self) (W.written sink)
            (W.held_back sink) (W.failures sink)) }
        ensures refused { IfErr result
            (λ e. FinishFails (writer self) (W.written e.1) (W.failures e.1) e.0) };

    /// Returns the sink.
    fn into_inner(self) -> W
        ensures written { W.written result ≡ (writer self).written }
        ensures failures { W.failures result ≡ (writer self).failures };
}

/// Each message goes to the sink as it is made.
impl<W: Sink> Output<W> for StreamWriter<W> {
    ghost writer = { λ w. w };

    ghost room = { λ w. None };

    fn write(&mut self, batch: &Batch, pairs: Items<(Text, Text)>) -> Result<Written, WriteFault> {
        self.write_columns(batch, pairs)?;
        Ok(Written::Whole)
    }

    fn finish(self) -> Result<W, (WriteFault, W)> {
        StreamWriter::finish(self)
    }

    fn into_inner(self) -> W {
        StreamWriter::into_inner(self)
    }
}

//! How a stream is rewritten, and the totals of what is sent.
ghost use Rattle.std.specs.Prelude.{◌≡◌, ◌∷◌, ◌++◌, ◌+◌, ℕ, List, [], length, IfSome, IsTrue};
ghost use Rattle.std.specs.Prelude.{IsFalse, None};
ghost use Rattle.ipc_model.specs.declared.table.BatchRows.{BatchRows};
ghost use Rattle.ipc_stream_read.specs.Counts.{count_up};
ghost use Rattle.ipc_stream_read.specs.Progress.{all_rows};
ghost use Rattle.job_rewrite.specs.Totals.{AreAbove, AreWithin, IsWithin};

/// How the stream must end that is read, and how much is written.
#[derive(Clone, Copy, Debug, PartialEq, Eq)]
pub struct RewriteOptions {
    /// Whether a stream that ends without the end-of-stream mark is refused.
    pub require_mark: bool,
    /// The maximum number of bytes of a message's body that is written; above 2^42 it stands for
    /// 2^42. If it is `None`, the limit is that of reading, or the standard one if that is greater.
    pub max_body: Option<u64>,
    /// The maximum number of batches that are written, or `None` for all.
    pub max_batches: Option<u64>,
    /// The maximum number of rows that are written in all batches together, or `None` for all.
    pub max_rows: Option<u64>,
    /// The maximum number of bytes that are written in all, or `None` for any number: those of all
    /// messages, of the schema, of dictionaries and of batches, and of the end-of-stream mark.
    pub max_bytes: Option<u64>,
    /// The maximum number of bytes that are held of what is read, or `None` for any number: those
    /// that came of the current message, and the bodies of the dictionaries in force.
    pub max_held: Option<u64>,
}

/// A total of what is written.
#[derive(Clone, Copy, Debug, PartialEq, Eq)]
pub enum Total {
    /// The batches.
    Batches,
    /// The rows of all batches together.
    Rows,
    /// The bytes of all messages and the end-of-stream mark.
    Bytes,
}

// Whether `count` and `more` together are above a maximum, if there is one. A count saturates at
// 2^64 - 1.
fn is_above(most: Option<u64>, count: u64, more: u64) -> bool
    ensures above { (done : ℕ) → count ≡ count_up 0 done → IsWithin most done → IsTrue result
        → IsWithin most (done + more) → ⊥ }
    ensures within { (done : ℕ) → count ≡ count_up 0 done → IsWithin most done → IsFalse result
        → IsWithin most (done + more) }
{
    match most {
        None => false,
        Some(most) => most.saturating_sub(count) < more,
    }
}

impl RewriteOptions {
    // The total that a batch of `more` rows would exceed, after `batches` batches with `rows` rows.
    // A count saturates at 2^64 - 1.
    pub(crate) fn total_above(self, batches: u64, rows: u64, more: u64) -> Option<Total>
        ensures above { IfSome result (λ total. (done : List BatchRows) (last : BatchRows)
            → batches ≡ count_up 0 (length done) → rows ≡ count_up 0 (all_rows done)
            → more ≡ length last.rows → AreWithin self done
            → AreAbove self total (done ++ last ∷ [])) }
        ensures within { result ≡ None → (done : List BatchRows) (last : BatchRows)
            → batches ≡ count_up 0 (length done) → rows ≡ count_up 0 (all_rows done)
            → more ≡ length last.rows → AreWithin self done
            → AreWithin self (done ++ last ∷ []) }
    {
        if is_above(self.max_batches, batches, 1) {
            return Some(Total::Batches);
        }
        if is_above(self.max_rows, rows, more) {
            return Some(Total::Rows);
        }
        None
    }
}

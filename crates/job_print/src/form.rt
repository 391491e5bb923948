//! The forms in which a stream is printed, the options of printing, and its limit of rows.
ghost use Rattle.std.specs.Prelude.{◌≡◌, ◌≤◌, ℕ, IsFalse, IsTrue};
ghost use Rattle.ipc_stream_read.specs.Counts.{count_up};
ghost use Rattle.job_print.specs.FirstRows.{HasReached, WantsMoreRows, wanted_rows};

use ipc_text_csv::Dialect;
use ipc_text_json::RowShape;

/// What is printed of a table.
#[derive(Clone, Copy, Debug, PartialEq, Eq)]
pub enum Form<'a> {
    /// The schema as JSON, and after the batches the numbers of bytes, batches and rows.
    Counts,
    /// Each row as JSON on a line of its own.
    Rows {
        /// Whether a row is an array of its values, or an object with the columns' names as keys.
        shape: RowShape,
        /// Whether a line with its pairs of key and value precedes each batch's rows: a JSON object
        /// with the one member `metadata`.
        pairs: bool,
    },
    /// A header and records of CSV, in this dialect.
    Records(Dialect<'a>),
}

/// What is printed of a stream, how much of it, and how the stream must end.
#[derive(Clone, Copy, Debug, PartialEq, Eq)]
pub struct PrintOptions<'a> {
    /// The form of the text.
    pub form: Form<'a>,
    /// Whether a stream that ends without the end-of-stream mark is refused. It has no effect if
    /// the rows reach the limit.
    pub require_mark: bool,
    /// The number of rows to print at most, or `None` for all of them.
    pub limit: Option<u64>,
    /// The maximum number of bytes that are held of the stream, or `None` for any number: those
    /// that came of the current message, and the bodies of the dictionaries in force.
    pub max_held: Option<u64>,
}

/// Returns whether no more rows are printed after `rows` rows. A count of rows stops at 2^64 - 1.
pub fn has_reached(limit: Option<u64>, rows: u64) -> bool
    ensures reached { IsTrue result → HasReached limit rows }
    ensures below { (count : ℕ) → rows ≡ count_up 0 count → IsFalse result
        → WantsMoreRows limit count }
{
    match limit {
        None => false,
        Some(limit) => limit <= rows,
    }
}

/// Returns how many of a batch's `rows` rows are printed, if `before` rows came before it. A count
/// of rows stops at 2^64 - 1.
pub fn count_wanted(limit: Option<u64>, before: u64, rows: usize) -> usize
    ensures wanted { (count : ℕ) → before ≡ count_up 0 count
        → result ≡ wanted_rows limit count rows }
    ensures most { result ≤ rows }
{
    match limit {
        None => rows,
        Some(limit) => limit.saturating_sub(before).min(rows as u64) as usize,
    }
}

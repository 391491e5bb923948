//! The dialect of CSV that a command line asks for.
ghost use Rattle.std.specs.Prelude.{◌≡◌, IfSome, None, string_bytes};
ghost use Rattle.ipc_text_csv.specs.Dialects.{IsDialect};

use ipc_text_csv::Dialect;

/// A dialect of CSV with a text of its own. `ipc_text_csv::Dialect` says which are allowed.
#[derive(Debug, Drop)]
pub struct CsvDialect {
    delimiter: u8,
    null: String,
    ghost allowed: { IsDialect delimiter (string_bytes null) },
}

impl CsvDialect {
    /// Returns the dialect of this delimiter and text of null, or `None` if it is not allowed.
    pub fn new(delimiter: u8, null: String) -> Option<CsvDialect>
        ensures same { IfSome result
            (λ d. (d.delimiter ≡ delimiter) × (string_bytes d.null ≡ string_bytes null)) }
        ensures none { result ≡ None → ¬ IsDialect delimiter (string_bytes null) }
    {
        if Dialect::new(delimiter, null.as_str()).is_none() {
            return None;
        }
        Some(CsvDialect { delimiter, null })
    }

    /// Returns the dialect.
    pub fn dialect(&self) -> Dialect<'_>
        ensures delimiter { result.delimiter ≡ self.now.delimiter }
        ensures null { result.null.now ≡ string_bytes self.now.null }
    {
        Dialect::new(self.delimiter, self.null.as_str()).unwrap_or(Dialect::standard())
    }
}

//! The dialects of CSV: the delimiter, the text of null, and whether only the strict form is read.
ghost use Rattle.std.specs.Prelude.{◌≡◌, ◌↔◌, IfSome, IsSome, false};
ghost use Rattle.std.specs.Char.{is_ascii_hexdigit};
ghost use Rattle.std.specs.List.{list_all};
ghost use Rattle.std.specs.Str.{bytes_eq};
ghost use Rattle.csv.specs.Writing as csv;
ghost use Rattle.ipc_text_csv.specs.Dialects as spec;
ghost use Rattle.ipc_text_csv.specs.Dialects.{IsDialect, standard_null, writer};

/// A dialect of CSV: the byte between fields, the text of null, and whether only the strict form is
/// read. Each dialect reads back what it writes.
///
/// The delimiter is an ASCII byte. It is none of NUL, line feed, carriage return, the quotation
/// mark, the digits, the letters, `-`, `.` and `:`.
///
/// The text of null may be empty. It has no delimiter, quotation mark, line feed or carriage
/// return, so it needs no quotes. No value of a type other than UTF-8 has it as its text. It is
/// none of:
///
/// - `true` or `false`;
/// - a text that begins with a digit, or with `-` and a digit;
/// - one or more pairs of hexadecimal digits, in either case.
///
/// The strict form is that of RFC 4180, section 2, where each line has its end, which is CR, LF or
/// CRLF. No line is blank, no field has a quote in it unless it is in quotes, and nothing follows
/// the quote that ends a field. A byte order mark belongs to the first field.
#[derive(Clone, Copy, Debug, PartialEq, Eq)]
pub struct Dialect<'a> {
    delimiter: u8,
    null: &'a str,
    strict: bool,
    ghost allowed: { IsDialect delimiter null.now },
}

/// Returns whether a field needs quotes.
pub(crate) fn needs_quotes(delimiter: u8, field: &[u8]) -> bool
    ensures { result ≡ csv.needs_quotes (writer delimiter) field.now }
{
    field.iter().any(|byte| *byte == delimiter || matches!(*byte, b'"' | b'\r' | b'\n'))
}

// Whether a byte can stand between fields.
fn is_delimiter(byte: u8) -> bool
    ensures { result ≡ spec.is_delimiter byte }
{
    let is_plain = byte.is_ascii_alphanumeric() || matches!(byte, b'-' | b'.' | b':');
    byte < 128 && !is_plain && !matches!(byte, 0 | b'\n' | b'\r' | b'"')
}

// Whether a text begins as a number, a date or a time does.
fn begins_number(text: &[u8]) -> bool
    ensures { result ≡ spec.begins_number text.now }
{
    match text {
        [] => false,
        [byte] => byte.is_ascii_digit(),
        [first, second, ..] => {
            first.is_ascii_digit() || (*first == b'-' && second.is_ascii_digit())
        }
    }
}

// Whether each byte is a hexadecimal digit.
fn are_digits(text: &[u8]) -> bool
    ensures { result ≡ list_all is_ascii_hexdigit text.now }
{
    text.iter().all(|byte| byte.is_ascii_hexdigit())
}

// Whether a text is one or more pairs of hexadecimal digits.
fn is_hexadecimal(text: &[u8]) -> bool
    ensures { result ≡ spec.is_hexadecimal text.now }
{
    !text.is_empty() && text.len() % 2 == 0 && are_digits(text)
}

// Whether values that are no texts can have a text like this one.
fn is_like_value(text: &str) -> bool
    ensures { result ≡ spec.is_like_value text.now }
{
    text == "true"
        || text == "false"
        || begins_number(text.as_bytes())
        || is_hexadecimal(text.as_bytes())
}

impl<'a> Dialect<'a> {
    /// Returns the dialect of this delimiter and text of null, which is not strict, or `None` if it
    /// is not allowed, as the type states.
    pub fn new(delimiter: u8, null: &'a str) -> Option<Dialect<'a>>
        ensures allowed { IsSome result ↔ IsDialect delimiter null.now }
        ensures same { IfSome result
            (λ d. (d.delimiter ≡ delimiter) × (d.null.now ≡ null.now) × (d.strict ≡ false)) }
    {
        if is_delimiter(delimiter)
            && !needs_quotes(delimiter, null.as_bytes())
            && !is_like_value(null)
        {
            return Some(Dialect {
                delimiter,
                null,
                strict: false,
            });
        }
        None
    }

    /// Returns the standard dialect: a comma, `\N` for null, and not strict.
    pub fn standard() -> Dialect<'static>
        ensures comma { result.delimiter ≡ 44 }
        ensures null { result.null.now ≡ standard_null }
        ensures strict { result.strict ≡ false }
    {
        Dialect {
            delimiter: b',',
            null: "\\N",
            strict: false,
        }
    }

    /// Returns the dialect, of which only the strict form is read if `strict` is set.
    pub fn with_strict(self, strict: bool) -> Dialect<'a>
        ensures delimiter { result.delimiter ≡ self.entry.delimiter }
        ensures null { result.null.now ≡ self.entry.null.now }
        ensures strict { result.strict ≡ strict }
    {
        Dialect {
            delimiter: self.delimiter,
            null: self.null,
            strict,
        }
    }

    /// Returns whether only the strict form is read.
    pub fn is_strict(&self) -> bool
        ensures { result ≡ self.now.strict }
    {
        self.strict
    }

    /// Returns the byte between fields.
    #[inline(always)]
    pub fn delimiter(&self) -> u8
        ensures { result ≡ self.now.delimiter }
    {
        self.delimiter
    }

    /// Returns the text of null.
    #[inline(always)]
    pub fn null(&self) -> &'a str
        ensures { result.now ≡ self.now.null.now }
    {
        self.null
    }

    /// Returns whether null is `\N`. Then, and only then, a text that begins with a backslash gets
    /// one more before it.
    pub fn escapes_backslash(&self) -> bool
        ensures { result ≡ bytes_eq self.now.null.now standard_null }
    {
        self.null == "\\N"
    }
}

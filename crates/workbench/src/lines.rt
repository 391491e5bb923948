//! The lines of an answer.
use crate::answer::Answer;
use crate::columns::ByColumns;
use crate::cut::Cut;
use crate::report::{Other, PIECES, Report, RoundTrip, Way};
use crate::words::{write_dictionary, write_pairs, write_text, write_type, write_value};
use ipc_model::{BatchRows, Field, Row, Schema, Table};
use ipc_stream::{End, RoundTripFault};
use std::fmt;

// Two blanks for each level.
fn write_margin<W: fmt::Write>(f: &mut fmt::Formatter<W>, depth: usize) -> fmt::Result {
    for _ in 0..depth {
        f.write_str("  ")?;
    }
    Ok(())
}

// The name of a field and its type.
fn write_front<W: fmt::Write>(f: &mut fmt::Formatter<W>, field: &Field) -> fmt::Result {
    f.write_str("field ")?;
    write_text(f, field.name.as_str())?;
    f.write_str(" ")?;
    write_type(f, &field.kind)
}

// What else a field has, and the end of its line.
fn write_rest<W: fmt::Write>(f: &mut fmt::Formatter<W>, field: &Field) -> fmt::Result {
    if field.nullable {
        f.write_str(" nullable")?;
    }
    if let Some(dictionary) = field.dictionary {
        write_dictionary(f, dictionary)?;
    }
    write_pairs(f, field.metadata.as_slice())?;
    f.write_str("\n")
}

// A field and its descendants, each indented by two blanks more than its parent.
#[cycle(write_field)]
fn write_field<W: fmt::Write>(
    field: &Field,
    depth: usize,
    f: &mut fmt::Formatter<W>,
) -> fmt::Result {
    write_margin(f, depth)?;
    write_front(f, field)?;
    write_rest(f, field)?;
    write_fields(field.children.as_slice(), depth.saturating_add(1), f)
}

#[cycle(write_field)]
fn write_fields<W: fmt::Write>(
    fields: &[Field],
    depth: usize,
    f: &mut fmt::Formatter<W>,
) -> fmt::Result {
    for field in fields {
        write_field(field, depth, f)?;
    }
    Ok(())
}

fn write_schema<W: fmt::Write>(f: &mut fmt::Formatter<W>, schema: &Schema) -> fmt::Result {
    f.write_str("schema")?;
    write_pairs(f, schema.metadata.as_slice())?;
    f.write_str("\n")?;
    write_fields(schema.fields.as_slice(), 0, f)
}

fn write_row<W: fmt::Write>(f: &mut fmt::Formatter<W>, row: &Row) -> fmt::Result {
    f.write_str("row")?;
    for value in row.as_slice() {
        f.write_str(" ")?;
        write_value(value, f)?;
    }
    f.write_str("\n")
}

fn write_rows<W: fmt::Write>(f: &mut fmt::Formatter<W>, rows: &[Row]) -> fmt::Result {
    for row in rows {
        write_row(f, row)?;
    }
    Ok(())
}

fn write_batch<W: fmt::Write>(f: &mut fmt::Formatter<W>, batch: &BatchRows) -> fmt::Result {
    let count = batch.rows.len();
    write!(f, "batch {count}")?;
    write_pairs(f, batch.pairs.as_slice())?;
    f.write_str("\n")?;
    write_rows(f, batch.rows.as_slice())
}

fn write_table<W: fmt::Write>(f: &mut fmt::Formatter<W>, table: &Table) -> fmt::Result {
    write_schema(f, &table.schema)?;
    for batch in table.batches.as_slice() {
        write_batch(f, batch)?;
    }
    Ok(())
}

fn write_ending<W: fmt::Write>(f: &mut fmt::Formatter<W>, answer: &Answer) -> fmt::Result {
    if let Some(end) = answer.end {
        f.write_str(match end {
            End::Mark => "end mark\n",
            End::Closed => "end closed\n",
        })?;
    }
    if let Some((fault, message)) = answer.refusal {
        writeln!(f, "refused {fault} at message {message}")?;
    }
    Ok(())
}

impl fmt::Display for Answer {
    fn fmt<W: fmt::Write>(&self, f: &mut fmt::Formatter<W>) -> fmt::Result {
        if let Some(table) = &self.table {
            write_table(f, table)?;
        }
        write_ending(f, self)
    }
}

// How many bytes were taken. The reader's count has to agree with what remains in the source.
fn write_taken<W: fmt::Write>(
    f: &mut fmt::Formatter<W>,
    answer: &Answer,
    length: usize,
) -> fmt::Result {
    let taken = length.saturating_sub(answer.left);
    writeln!(f, "taken {taken} of {length}")?;
    match answer.taken {
        Some(count) if count != taken as u64 => writeln!(f, "miscounted {count}"),
        _ => Ok(()),
    }
}

fn write_round_trip<W: fmt::Write>(f: &mut fmt::Formatter<W>, trip: &RoundTrip) -> fmt::Result {
    match trip {
        RoundTrip::Same => f.write_str("written same\n"),
        RoundTrip::Differs => f.write_str("written other\n"),
        RoundTrip::Refused(RoundTripFault::Write(fault)) => writeln!(f, "written {fault}"),
        RoundTrip::Refused(RoundTripFault::Read(fault)) => writeln!(f, "written and then {fault}"),
    }
}

// The sizes of pieces that made no difference, or the answer for a size that did.
fn write_pieces<W: fmt::Write>(
    f: &mut fmt::Formatter<W>,
    in_pieces: &Option<(usize, Answer)>,
) -> fmt::Result {
    if let Some((step, answer)) = in_pieces {
        return write!(f, "in pieces of {step} other\n{answer}");
    }
    f.write_str("in pieces of")?;
    for step in PIECES {
        write!(f, " {step}")?;
    }
    f.write_str(" same\n")
}

// The way and the cut for which the answer differs, with that answer.
fn write_other<W: fmt::Write>(f: &mut fmt::Formatter<W>, other: &Option<Other>) -> fmt::Result {
    let Some(other) = other else {
        return Ok(());
    };
    f.write_str(match other.way {
        Way::Pulled => "pulled ",
        Way::Pushed => "pushed ",
    })?;
    match other.cut {
        Cut::Each(size) => writeln!(f, "in pieces of {size} other")?,
        Cut::At(place) => writeln!(f, "and cut at {place} other")?,
    }
    write!(f, "{}", other.answer)
}

impl fmt::Display for ByColumns {
    fn fmt<W: fmt::Write>(&self, f: &mut fmt::Formatter<W>) -> fmt::Result {
        match self {
            ByColumns::Same => Ok(()),
            ByColumns::Differs => f.write_str("from columns other\n"),
        }
    }
}

impl fmt::Display for Report {
    fn fmt<W: fmt::Write>(&self, f: &mut fmt::Formatter<W>) -> fmt::Result {
        write!(f, "{}", self.answer)?;
        write_taken(f, &self.answer, self.length)?;
        write_pieces(f, &self.in_pieces)?;
        write_other(f, &self.other)?;
        if !self.same_table {
            f.write_str("read_table other\n")?;
        }
        write!(f, "{}", self.by_columns)?;
        match &self.round_trip {
            Some(trip) => write_round_trip(f, trip),
            None => Ok(()),
        }
    }
}

//! Columns, rows and tables of numbers and letters that the tests write and read back.

use ipc_model::{
    BatchRows, DataType, DateUnit, Dictionary, Field, IndexType, IntBits, Items, Row, Schema,
    Table, Text, Value,
};
use ipc_stream::Memory;
use std::alloc::{AllocError, Global};

/// The columns of a table: one required column, none, or columns with dictionary 7 of texts of one
/// letter, whose values may be null.
#[derive(Clone, Copy)]
pub enum Column {
    /// There is none.
    Absent,
    /// Signed numbers of 8 bits.
    Bytes,
    /// Unsigned numbers of 8 bits.
    UnsignedBytes,
    /// Signed numbers of 64 bits.
    Numbers,
    /// Days in milliseconds.
    Days,
    /// One column of letters. A number is a letter.
    Letters,
    /// Two columns of letters. A number has the second letter in its lowest byte, and the first in
    /// the next one.
    LetterPairs,
}

/// The numbers of rows; None is null.
pub type Rows<'a> = &'a [Option<i64>];

/// The numbers 1, -2 and the greatest of 64 bits.
pub const NUMBERS: Rows<'static> = &[Some(1), Some(-2), Some(i64::MAX)];

/// One letter.
pub const A: Rows<'static> = &[Some(0x61)];

pub const B: Rows<'static> = &[Some(0x62)];

/// The letters of a number: a and b, b and c, c and d.
pub const AB: Option<i64> = Some(0x6162);

pub const BC: Option<i64> = Some(0x6263);

pub const CD: Option<i64> = Some(0x6364);

/// The type of whole numbers of this width.
pub fn int(bits: IntBits, signed: bool) -> DataType {
    DataType::Int { bits, signed }
}

// Dictionary 7, under signed indices of 8 bits.
const LETTERS: Dictionary = Dictionary {
    id: 7,
    index: IndexType {
        bits: IntBits::B8,
        signed: true,
    },
    ordered: false,
};

fn letters(alloc: Global) -> Result<Field, AllocError> {
    let field = Field::new(alloc, "a", DataType::Utf8)?.nullable();
    Ok(field.with_dictionary(LETTERS))
}

// The text of one letter.
fn letter(alloc: Global, letter: u8) -> Result<Value, AllocError> {
    let mut text = String::new(alloc);
    text.push(letter as char)?;
    Value::text(alloc, &text)
}

// Both letters of a number.
fn letter_pair(alloc: Global, number: i64) -> Result<Row, AllocError> {
    let bytes = number.to_le_bytes();
    let mut pair = Vec::new(alloc);
    pair.push(letter(alloc, bytes[1])?)?;
    pair.push(letter(alloc, bytes[0])?)?;
    Ok(Items::from_vec(pair))
}

impl Column {
    fn width(self) -> usize {
        match self {
            Column::Absent => 0,
            Column::LetterPairs => 2,
            _ => 1,
        }
    }

    fn field(self, alloc: Global) -> Result<Field, AllocError> {
        let kind = match self {
            Column::Bytes => int(IntBits::B8, true),
            Column::UnsignedBytes => int(IntBits::B8, false),
            Column::Absent | Column::Numbers => int(IntBits::B64, true),
            Column::Days => DataType::Date(DateUnit::Millisecond),
            Column::Letters | Column::LetterPairs => return letters(alloc),
        };
        Field::new(alloc, "a", kind)
    }

    /// The schema of the column.
    pub fn schema(self, alloc: Global) -> Result<Schema, AllocError> {
        let mut fields = Vec::new(alloc);
        for _column in 0..self.width() {
            fields.push(self.field(alloc)?)?;
        }
        Ok(Schema::new(fields))
    }

    fn value(self, alloc: Global, number: i64) -> Result<Value, AllocError> {
        Ok(match self {
            Column::UnsignedBytes => Value::UInt(number.unsigned_abs()),
            Column::Letters => letter(alloc, number.to_le_bytes()[0])?,
            _ => Value::Int(number),
        })
    }

    // A row of one value.
    fn single(self, alloc: Global, number: Option<i64>) -> Result<Row, AllocError> {
        let value = match number {
            Some(number) => self.value(alloc, number)?,
            None => Value::Null,
        };
        let mut row = Vec::new(alloc);
        row.push(value)?;
        Ok(Items::from_vec(row))
    }

    fn row(self, alloc: Global, number: Option<i64>) -> Result<Row, AllocError> {
        match self {
            Column::Absent => Ok(Items::new(alloc)),
            Column::LetterPairs => letter_pair(alloc, number.unwrap_or(0)),
            _ => self.single(alloc, number),
        }
    }

    /// A row for each of the numbers.
    pub fn rows(self, alloc: Global, numbers: Rows<'_>) -> Result<Vec<Row>, AllocError> {
        let mut rows = Vec::new(alloc);
        for number in numbers {
            rows.push(self.row(alloc, *number)?)?;
        }
        Ok(rows)
    }

    /// A batch with a row for each of the numbers, and with one pair or none.
    pub fn batch(
        self,
        alloc: Global,
        numbers: Rows<'_>,
        is_paired: bool,
    ) -> Result<BatchRows, AllocError> {
        let rows = Items::from_vec(self.rows(alloc, numbers)?);
        Ok(BatchRows {
            pairs: pairs(alloc, is_paired)?,
            rows,
        })
    }

    fn batches(
        self,
        alloc: Global,
        numbers: Rows<'_>,
        is_paired: bool,
    ) -> Result<Items<BatchRows>, AllocError> {
        let mut batches = Vec::new(alloc);
        batches.push(self.batch(alloc, numbers, is_paired)?)?;
        Ok(Items::from_vec(batches))
    }

    /// A table of one such batch.
    pub fn table(
        self,
        alloc: Global,
        numbers: Rows<'_>,
        is_paired: bool,
    ) -> Result<Table, AllocError> {
        let schema = self.schema(alloc)?;
        Ok(Table {
            schema,
            batches: self.batches(alloc, numbers, is_paired)?,
        })
    }
}

/// One pair, of two bytes, or none.
pub fn pairs(alloc: Global, is_paired: bool) -> Result<Items<(Text, Text)>, AllocError> {
    let mut pairs = Vec::new(alloc);
    if is_paired {
        pairs.push((Text::copied(alloc, "k")?, Text::copied(alloc, "v")?))?;
    }
    Ok(Items::from_vec(pairs))
}

/// A sink with room for the streams of most tests.
pub fn empty(alloc: Global) -> Result<Memory, AllocError> {
    Ok(Memory::new(Vec::with_capacity(alloc, 1 << 12)?))
}

//! What writers refuse, with and without limits, and what they send nevertheless: what another
//! writer sends for the remaining rows. What a reader answers under limits is in `cases/`.

use crate::scripts::{Step, ended, sent, started, stream_of};
use crate::tables::{AB, BC, CD, Column, NUMBERS, empty};
use ipc_model::{DataType, Fault, Field, Items, Limits, Schema, Table, Value, WriteFault};
use ipc_stream::{Memory, StreamWriter, read_table, write_table};
use std::alloc::{AllocError, Global};
use std::test::Fail;

// The steps that a writer is asked to take under limits on metadata, body, slots, fields, depth,
// text and pairs; the lines of its faults; and the steps that give the same bytes.
struct Script {
    limits: [u64; 7],
    column: Column,
    steps: &'static [Step<'static>],
    told: &'static str,
    same: &'static [Step<'static>],
}

const WIDE: [u64; 7] = [1 << 24, 1 << 20, 1000, 10, 4, 1000, 10];

const SCRIPTS: [Script; 14] = [
    // A row that doesn't fit is refused with the number that it would have; the others are sent.
    Script {
        limits: WIDE,
        column: Column::Bytes,
        steps: &[Step::Push(&[Some(1), Some(2), Some(128), None, Some(-128)])],
        told: "W4 OutOfRange at row 2 path 0\nW5 NullNotAllowed at row 2 path 0\n",
        same: &[Step::Write(&[Some(1), Some(2), Some(-128)])],
    },
    Script {
        limits: WIDE,
        column: Column::Bytes,
        steps: &[Step::Push(&[])],
        told: "",
        same: &[Step::Write(&[])],
    },
    // A batch with a row that doesn't fit is refused, nothing is sent, and the writer goes on.
    Script {
        limits: WIDE,
        column: Column::Bytes,
        steps: &[
            Step::Write(&[Some(128)]),
            Step::Write(&[Some(127), None]),
            Step::Write(&[Some(127)]),
        ],
        told: "W4 OutOfRange at row 0 path 0\nW5 NullNotAllowed at row 1 path 0\n",
        same: &[Step::Write(&[Some(127)])],
    },
    Script {
        limits: WIDE,
        column: Column::UnsignedBytes,
        steps: &[Step::Write(&[Some(255), Some(256)])],
        told: "W4 OutOfRange at row 1 path 0\n",
        same: &[],
    },
    Script {
        limits: WIDE,
        column: Column::Days,
        steps: &[Step::Write(&[Some(86_400_000), Some(1)])],
        told: "W4 OutOfRange at row 1 path 0\n",
        same: &[],
    },
    // Rows that take no bytes can still be too many, and the writer goes on.
    Script {
        limits: [1 << 24, 0, 2, 10, 4, 1000, 10],
        column: Column::Absent,
        steps: &[Step::Write(&[None, None, None]), Step::Write(&[None, None])],
        told: "W8 TooManyRows\n",
        same: &[Step::Write(&[None, None])],
    },
    // One pair of two bytes fits, but not under a limit of one byte or of no pair.
    Script {
        limits: [1 << 24, 1 << 20, 1000, 10, 4, 2, 1],
        column: Column::Absent,
        steps: &[Step::WritePaired(&[])],
        told: "",
        same: &[Step::PushPaired(&[])],
    },
    Script {
        limits: [1 << 24, 1 << 20, 1000, 10, 4, 1, 1],
        column: Column::Absent,
        steps: &[Step::WritePaired(&[])],
        told: "W6 TooLong\n",
        same: &[],
    },
    Script {
        limits: [1 << 24, 1 << 20, 1000, 10, 4, 2, 0],
        column: Column::Absent,
        steps: &[Step::WritePaired(&[])],
        told: "W6 TooLong\n",
        same: &[],
    },
    // Limits that three numbers just meet, except that of metadata; and a body one byte too long.
    Script {
        limits: [4096, 24, 3, 1, 1, 1, 0],
        column: Column::Numbers,
        steps: &[Step::Write(NUMBERS)],
        told: "",
        same: &[Step::Write(NUMBERS)],
    },
    Script {
        limits: [4096, 23, 3, 1, 1, 1, 0],
        column: Column::Numbers,
        steps: &[Step::Write(NUMBERS)],
        told: "W6 TooLong\n",
        same: &[],
    },
    // Three letters meet limits of 3 slots and of a body of 24 bytes, and four don't, though there
    // are two rows: a dictionary's values are rows of its message.
    Script {
        limits: [1 << 24, 1 << 20, 3, 10, 4, 1000, 10],
        column: Column::LetterPairs,
        steps: &[Step::Write(&[AB, CD]), Step::Write(&[AB, BC])],
        told: "W8 TooManyRows\n",
        same: &[Step::Write(&[AB, BC])],
    },
    Script {
        limits: [1 << 24, 24, 1000, 10, 4, 1000, 10],
        column: Column::LetterPairs,
        steps: &[Step::Write(&[AB, CD]), Step::Write(&[AB, BC])],
        told: "W6 TooLong\n",
        same: &[Step::Write(&[AB, BC])],
    },
    Script {
        limits: [1 << 24, 24, 1000, 10, 4, 1000, 10],
        column: Column::LetterPairs,
        steps: &[Step::Push(&[AB, CD, BC])],
        told: "W6 TooLong\n",
        same: &[Step::Write(&[AB, BC])],
    },
];

fn limits_of(values: [u64; 7]) -> Option<Limits> {
    let [metadata, body, slots, fields, depth, text, pairs] = values;
    Limits::new(metadata, body, slots, fields, depth, text, pairs)
}

// A line for each fault.
fn lines_of(alloc: Global, faults: &[WriteFault]) -> Result<String, AllocError> {
    let mut lines = String::new(alloc);
    for fault in faults {
        lines.push_str(format!(in alloc; "{fault}\n")?.as_str())?;
    }
    Ok(lines)
}

// Whether a writer answers and sends what the script says.
fn is_answered(alloc: Global, script: &Script) -> Result<bool, WriteFault> {
    let Some(limits) = limits_of(script.limits) else {
        return Ok(false);
    };
    let (bytes, faults) = sent(alloc, limits, script.column, script.steps)?;
    let wanted = stream_of(alloc, script.column, script.same)?;
    let told = lines_of(alloc, &faults)?;
    Ok(told.as_str() == script.told && bytes.as_slice() == wanted.as_slice())
}

// The number of the first script to which something else is answered, if there is one.
fn answered_otherwise(alloc: Global) -> Result<Option<usize>, WriteFault> {
    for (number, script) in SCRIPTS.iter().enumerate() {
        if !is_answered(alloc, script)? {
            return Ok(Some(number));
        }
    }
    Ok(None)
}

// Sends those of the numbers that fit their column as one batch.
fn push_numbers(
    alloc: Global,
    stream: &mut StreamWriter<Memory>,
    numbers: &[i64],
) -> Result<(), WriteFault> {
    let mut batch = stream.batch(Items::new(alloc))?;
    for number in numbers {
        match batch.push(&[Value::Int(*number)]) {
            Ok(()) | Err(WriteFault::Row { .. }) => {}
            Err(fault) => return Err(fault),
        }
    }
    batch.send()
}

// The stream of a writer with a batch of those of the numbers that fit.
fn pushed(alloc: Global, numbers: &[i64]) -> Result<Vec<u8>, WriteFault> {
    let mut writer = started(alloc, &Column::Bytes.schema(alloc)?)?;
    push_numbers(alloc, &mut writer, numbers)?;
    ended(writer)
}

// The body of the numbers, and the end mark.
const BODY_AND_END: [u8; 32] = [
    1, 0, 0, 0, 0, 0, 0, 0, 254, 255, 255, 255, 255, 255, 255, 255, 255, 255, 255, 255, 255, 255,
    255, 127, 255, 255, 255, 255, 0, 0, 0, 0,
];

// Whether no writer is started for a column of this type, and nothing is sent.
fn is_bad(alloc: Global, kind: DataType) -> Result<bool, AllocError> {
    let mut fields = Vec::new(alloc);
    fields.push(Field::new(alloc, "a", kind)?)?;
    let schema = Schema::new(fields);
    let sink = empty(alloc)?;
    Ok(
        match StreamWriter::start(alloc, Limits::standard(), sink, &schema) {
            Ok(_writer) => false,
            Err((fault, sink)) => fault == WriteFault::BadSchema && sink.into_bytes().is_empty(),
        },
    )
}

// The schemas have a width that no column has, and a list without its child.
#[test]
fn answers_of_writers(rt: HostRuntime) -> Result<(), Fail> {
    assert!(rt; answered_otherwise(rt.alloc())? == None);
    let fit = stream_of(
        rt.alloc(),
        Column::Bytes,
        &[Step::Write(&[Some(127), Some(-128)])],
    )?;
    assert!(rt; pushed(rt.alloc(), &[127, 128, -128, -129])?.as_slice() == fit.as_slice());
    let bytes = stream_of(rt.alloc(), Column::Numbers, &[Step::Write(NUMBERS)])?;
    let is_wide = is_bad(rt.alloc(), DataType::FixedSizeBinary(1 << 31))?;
    assert!(rt; bytes.ends_with(&BODY_AND_END) && is_wide && is_bad(rt.alloc(), DataType::List)?);
    Ok(())
}

// The table of a stream.
fn table_of(alloc: Global, bytes: Vec<u8>) -> Result<Table, Fault> {
    let mut source = Memory::new(bytes);
    Ok(read_table(alloc, &Limits::standard(), &mut source)?.0)
}

fn is_copied(table: &Table) -> Result<bool, AllocError> {
    Ok(table.clone()?.is_same(table))
}

// Whether a table is written, and read back.
fn comes_back(alloc: Global, table: &Table) -> Result<bool, Fail> {
    let mut sink = empty(alloc)?;
    write_table(alloc, &Limits::standard(), &mut sink, table)?;
    Ok(table_of(alloc, sink.into_bytes())?.is_same(table))
}

#[test]
fn grows_a_written_table(rt: HostRuntime) -> Result<(), Fail> {
    let table = Column::Numbers.table(rt.alloc(), NUMBERS, true)?;
    assert!(rt; is_copied(&table)? && comes_back(rt.alloc(), &table)?);
    Ok(())
}

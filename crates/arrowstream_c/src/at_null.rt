//! What calls at a null handle write through a pointer, beside the number that they return.
ghost use Rattle.arrowstream_c.specs.AtNull.{CopiesNothing, IsNowhere, RefusesText, TakesNothing};
ghost use Rattle.arrowstream_c.specs.Handles.{RefusesMisuse};

use crate::answers::{Canonical, Column, FieldNumbers, MISUSE, PROGRESS_SIZE, Progress};

// Copies no byte, and wants none.
pub(crate) fn no_text(text: &mut [u8], wanted: &mut usize) -> u32
    ensures { RefusesText text.old text.new wanted.new result }
{
    let _text = text;
    *wanted = 0;
    MISUSE
}

// Describes no column.
pub(crate) fn no_column(out: &mut Column) -> u32
    ensures { RefusesMisuse out.old out.new result }
{
    let _out = out;
    MISUSE
}

// Describes no field.
pub(crate) fn no_field(out: &mut FieldNumbers) -> u32
    ensures { RefusesMisuse out.old out.new result }
{
    let _out = out;
    MISUSE
}

// Reports that nothing was taken, and that nothing came.
pub(crate) fn no_progress(out: &mut Progress) -> u32
    ensures { IsNowhere out.old out.new result }
{
    if out.size >= PROGRESS_SIZE {
        out.taken = 0;
        out.wanted = 0;
        out.messages = 0;
        out.event = 0;
    }
    MISUSE
}

// Copies nothing.
pub(crate) fn no_copy(bytes: &mut [u8], numbers: &mut [i64], out: &mut Canonical) -> u32
    ensures { CopiesNothing bytes.old bytes.new numbers.old numbers.new out.old out.new result }
{
    let _bytes = bytes;
    let _numbers = numbers;
    let _out = out;
    MISUSE
}

// Moves no byte.
pub(crate) fn none_taken(bytes: &mut [u8]) -> usize
    ensures { TakesNothing bytes.old bytes.new result }
{
    let _bytes = bytes;
    0
}

//! Finds a column of a batch, or one below it, by the numbers of a path.
ghost use Rattle.std.specs.Prelude.{IfSome, IfNone};
ghost use Rattle.ipc_stream_session.specs.Paths.{Describes, LeadsBelow, StepsTo, HasNoStep};
ghost use Rattle.ipc_stream_session.specs.Paths.{StopsBelow};

use ipc_column::SlotView;
use ipc_model::Layout;

/// The step of a path from a column of indices to the values of its dictionary. Every other step is
/// the number of a child, from 0.
pub const DICTIONARY_STEP: u64 = 0xffff_ffff_ffff_ffff;

/// What a column stores: its layout, and the sizes of what it has.
#[derive(Clone, Copy, Debug)]
pub struct ColumnFacts {
    /// The layout of the slots.
    pub layout: Layout,
    /// The number of slots. A column of a batch has one for each row.
    pub slots: usize,
    /// The number of slots that the validity bitmap marks as null, or 0 without a bitmap.
    pub nulls: u64,
    /// The number of children.
    pub children: usize,
    /// The number of bytes of the validity bitmap, or 0 without a bitmap.
    pub validity: usize,
    /// The number of bytes of the offsets, or 0 if the layout has none.
    pub offsets: usize,
    /// The number of bytes of the values, or 0 if the layout has none.
    pub values: usize,
}

// Describes the slots of a column.
pub(crate) fn facts_of(view: &SlotView<'_>) -> ColumnFacts
    ensures { Describes view.now result }
{
    let buffers = view.buffers();
    ColumnFacts {
        layout: buffers.layout,
        slots: view.len(),
        nulls: view.null_count(),
        children: view.children(),
        validity: buffers.validity.len(),
        offsets: buffers.offsets.len(),
        values: buffers.values.len(),
    }
}

// The slots to which one step leads.
fn step_down<'a>(view: &SlotView<'a>, step: u64) -> Option<SlotView<'a>>
    ensures finds { IfSome result (StepsTo view.now step) }
    ensures none { IfNone result (HasNoStep view.now step) }
{
    if step == DICTIONARY_STEP {
        return match view.layout() {
            Layout::Indices { .. } => view.entries(),
            _ => None,
        };
    }
    if step >= view.children() as u64 {
        return None;
    }
    Some(view.child(step as usize))
}

// The slots to which all steps lead.
pub(crate) fn slots_below<'a>(view: SlotView<'a>, steps: &[u64]) -> Option<SlotView<'a>>
    ensures finds { IfSome result (LeadsBelow view.entry steps.now) }
    ensures none { IfNone result (StopsBelow view.entry steps.now) }
{
    match steps.split_first() {
        None => Some(view),
        Some((step, rest)) => match step_down(&view, *step) {
            None => None,
            Some(next) => slots_below(next, rest),
        },
    }
}

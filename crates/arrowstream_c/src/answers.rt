//! The structs that C passes and reads, and the numbers in them.
ghost use Rattle.std.specs.Prelude.{◌≡◌};
ghost use Rattle.ipc_model.specs.Numbering.{fault_number};
ghost use Rattle.arrowstream_c.specs.Numbers.{AreCapped, AreStandard, Caps, IsLayout, SetsStandard};
ghost use Rattle.arrowstream_c.specs.Numbers.{Shows, ShowsDictionary, ShowsField, ShowsRoom};
ghost use Rattle.arrowstream_c.specs.Numbers.{ShowsSent, arrival_number, end_number};

use ipc_model::{
    Dictionary, Fault, Layout, Limits, MAX_BODY, MAX_DEPTH, MAX_FIELDS, MAX_METADATA, MAX_PAIRS,
    MAX_SLOTS, MAX_TEXT,
};
use ipc_stream_read::End;
use ipc_stream_session::{Arrival, CanonicalSize, ColumnFacts, FieldFacts};

/// The status of a call that finds nothing: no refusal of the reader has this number.
pub(crate) const ABSENT: u32 = 64;

/// The status of a call that the state of a writer does not allow, and of one at null.
pub(crate) const MISUSE: u32 = 65;

// The numbers of bytes of the structs that may grow. A smaller struct is left as it is.
pub(crate) const LIMITS_SIZE: usize = size_of::<ReadLimits>();

pub(crate) const PROGRESS_SIZE: usize = size_of::<Progress>();

pub(crate) const COLUMN_SIZE: usize = size_of::<Column>();

pub(crate) const FIELD_SIZE: usize = size_of::<FieldNumbers>();

pub(crate) const CANONICAL_SIZE: usize = size_of::<Canonical>();

/// Limits on what a reader accepts, in the units of `ipc_model::Limits`.
#[repr(C)]
#[derive(Drop)]
pub struct ReadLimits {
    /// The number of bytes of the struct, which the caller sets.
    pub size: usize,
    /// The maximum number of bytes of a message's metadata.
    pub metadata: u64,
    /// The maximum number of bytes of a message's body.
    pub body: u64,
    /// The maximum number of rows of a batch, and of slots of a column.
    pub slots: u64,
    /// The maximum number of fields of a schema.
    pub fields: u64,
    /// The maximum nesting of fields.
    pub depth: u64,
    /// The maximum number of bytes of names, keys and values.
    pub text: u64,
    /// The maximum number of pairs of key and value.
    pub pairs: u64,
}

/// How far a reader has come.
#[repr(C)]
#[derive(Drop)]
pub struct Progress {
    /// The number of bytes of the struct, which the caller sets.
    pub size: usize,
    /// The number of bytes that the call took.
    pub taken: usize,
    /// The number of bytes before the next decision.
    pub wanted: usize,
    /// The number of messages that came.
    pub messages: u64,
    /// What came: 0 nothing, 1 the schema, 2 a batch, 3 the end-of-stream mark, 4 the end of the
    /// input.
    pub event: u64,
}

/// The layout of a column (Arrow Columnar Format, "Buffer Listing for Each Layout").
#[repr(C)]
#[derive(Drop)]
pub struct LayoutNumbers {
    /// 0 null, 1 bits, 2 numbers, 3 fixed-size bytes, 4 bytes, 5 texts, 6 lists, 7 fixed-size
    /// lists, 8 structs, 9 indices.
    pub kind: u32,
    /// The number of bits of a number or an index, else 0.
    pub bits: u32,
    /// 1 if numbers or indices are stored in two's complement, else 0.
    pub is_signed: u32,
    /// The number of bytes of fixed-size bytes, or of slots of a fixed-size list, else 0.
    pub size: u32,
    /// The id of the dictionary of indices, else 0.
    pub dictionary: i64,
}

/// What a column stores.
#[repr(C)]
#[derive(Drop)]
pub struct Column {
    /// The number of bytes of the struct, which the caller sets.
    pub size: usize,
    /// The layout.
    pub layout: LayoutNumbers,
    /// The number of slots.
    pub slots: usize,
    /// The number of slots that the validity bitmap marks as null.
    pub nulls: u64,
    /// The number of children.
    pub children: usize,
    /// The number of bytes of the validity bitmap.
    pub validity: usize,
    /// The number of bytes of the offsets.
    pub offsets: usize,
    /// The number of bytes of the values.
    pub values: usize,
}

/// What a field is, without its texts.
#[repr(C)]
#[derive(Drop)]
pub struct FieldNumbers {
    /// The number of bytes of the struct, which the caller sets.
    pub size: usize,
    /// 1 if its values may be null, else 0.
    pub is_nullable: u32,
    /// The number of bits of its dictionary's indices, or 0 if it has no dictionary.
    pub index_bits: u32,
    /// 1 if the indices are stored in two's complement, else 0.
    pub is_signed: u32,
    /// 1 if the order of the dictionary's values is meaningful, else 0.
    pub is_ordered: u32,
    /// The id of the dictionary, or 0 if it has none.
    pub dictionary: i64,
    /// The number of children.
    pub children: usize,
    /// The number of pairs of key and value.
    pub pairs: usize,
}

/// The room that a batch takes as it is sent.
#[repr(C)]
#[derive(Drop)]
pub struct Canonical {
    /// The number of bytes of the struct, which the caller sets.
    pub size: usize,
    /// The number of bytes of the body.
    pub bytes: usize,
    /// The number of nodes.
    pub nodes: usize,
    /// The number of buffers.
    pub buffers: usize,
}

// The value, or `most` if it is above.
fn at_most(value: u64, most: u64) -> u64
    ensures { Caps value most result }
{
    if value <= most { value } else { most }
}

// Limits of the library, each at most its maximum.
pub(crate) fn cap_limits(asked: &ReadLimits) -> Limits
    ensures { AreCapped asked.now result }
{
    Limits {
        metadata: at_most(asked.metadata, MAX_METADATA),
        body: at_most(asked.body, MAX_BODY),
        slots: at_most(asked.slots, MAX_SLOTS),
        fields: at_most(asked.fields, MAX_FIELDS),
        depth: at_most(asked.depth, MAX_DEPTH),
        text: at_most(asked.text, MAX_TEXT),
        pairs: at_most(asked.pairs, MAX_PAIRS),
    }
}

// Sets the standard limits.
fn fill_standard(out: &mut ReadLimits)
    ensures standard { AreStandard out.new }
    ensures size { out.new.size ≡ out.old.size }
{
    let standard = Limits::standard();
    out.metadata = standard.metadata;
    out.body = standard.body;
    out.slots = standard.slots;
    out.fields = standard.fields;
    out.depth = standard.depth;
    out.text = standard.text;
    out.pairs = standard.pairs;
}

// Sets the standard limits, if the struct has room for them.
pub(crate) fn set_standard(out: &mut ReadLimits) -> u32
    ensures { SetsStandard out.old out.new result }
{
    if out.size < LIMITS_SIZE {
        return MISUSE;
    }
    fill_standard(out);
    0
}

// The status of a refusal: the number after its letter F.
pub(crate) fn status_of(fault: &Fault) -> u32
    ensures { result ≡ fault_number fault.now }
{
    u32::from(fault.number())
}

// The number of what came.
pub(crate) fn arrival_number(arrival: Arrival) -> u64
    ensures { result ≡ arrival_number arrival }
{
    match arrival {
        Arrival::Nothing => 0,
        Arrival::Schema => 1,
        Arrival::Batch => 2,
        Arrival::End => 3,
    }
}

// The number of an end.
pub(crate) fn end_number(end: End) -> u64
    ensures { result ≡ end_number end }
{
    match end {
        End::Mark => 3,
        End::Closed => 4,
    }
}

// The numbers of a layout.
fn layout_numbers(layout: Layout) -> LayoutNumbers
    ensures { IsLayout layout result }
{
    let mut numbers = LayoutNumbers {
        kind: 0,
        bits: 0,
        is_signed: 0,
        size: 0,
        dictionary: 0,
    };
    match layout {
        Layout::Null => {}
        Layout::Bits => numbers.kind = 1,
        Layout::Numbers { bits, signed } => {
            numbers.kind = 2;
            numbers.bits = u32::from(bits.width());
            numbers.is_signed = u32::from(signed);
        }
        Layout::FixedBytes(size) => {
            numbers.kind = 3;
            numbers.size = size;
        }
        Layout::VariableBytes { utf8 } => numbers.kind = if utf8 { 5 } else { 4 },
        Layout::Lists => numbers.kind = 6,
        Layout::FixedLists(size) => {
            numbers.kind = 7;
            numbers.size = size;
        }
        Layout::Structs => numbers.kind = 8,
        Layout::Indices { bits, signed, id } => {
            numbers.kind = 9;
            numbers.bits = u32::from(bits.width());
            numbers.is_signed = u32::from(signed);
            numbers.dictionary = id;
        }
    }
    numbers
}

impl Column {
    // The numbers of a column, in a struct of this number of bytes.
    pub(crate) fn of(size: usize, facts: &ColumnFacts) -> Column
        ensures { Shows facts.now size result }
    {
        Column {
            size,
            layout: layout_numbers(facts.layout),
            slots: facts.slots,
            nulls: facts.nulls,
            children: facts.children,
            validity: facts.validity,
            offsets: facts.offsets,
            values: facts.values,
        }
    }
}

impl Canonical {
    // The room that a batch takes, in a struct of this number of bytes.
    pub(crate) fn of(size: usize, room: CanonicalSize) -> Canonical
        ensures { ShowsRoom room size result }
    {
        Canonical {
            size,
            bytes: room.bytes,
            nodes: room.nodes,
            buffers: room.buffers,
        }
    }

    // The room that a dictionary takes, or zeros, in a struct of this number of bytes.
    pub(crate) fn of_sent(size: usize, room: Option<CanonicalSize>) -> Canonical
        ensures { ShowsSent room size result }
    {
        match room {
            Some(room) => Canonical::of(size, room),
            None => Canonical {
                size,
                bytes: 0,
                nodes: 0,
                buffers: 0,
            },
        }
    }
}

impl FieldNumbers {
    // The numbers of a field, in a struct of this number of bytes.
    pub(crate) fn of(size: usize, facts: &FieldFacts) -> FieldNumbers
        ensures { ShowsField facts.now size result }
    {
        let mut numbers = dictionary_numbers(facts.dictionary);
        numbers.size = size;
        numbers.is_nullable = u32::from(facts.nullable);
        numbers.children = facts.children;
        numbers.pairs = facts.pairs;
        numbers
    }
}

// The numbers of a field's dictionary, if it has one, and nothing else.
fn dictionary_numbers(dictionary: Option<Dictionary>) -> FieldNumbers
    ensures { ShowsDictionary dictionary result }
{
    let mut numbers = FieldNumbers {
        size: FIELD_SIZE,
        is_nullable: 0,
        index_bits: 0,
        is_signed: 0,
        is_ordered: 0,
        dictionary: 0,
        children: 0,
        pairs: 0,
    };
    if let Some(dictionary) = dictionary {
        numbers.index_bits = u32::from(dictionary.index.bits.width());
        numbers.is_signed = u32::from(dictionary.index.signed);
        numbers.is_ordered = u32::from(dictionary.ordered);
        numbers.dictionary = dictionary.id;
    }
    numbers
}

//! Limits on what one stream, schema or batch may hold.
ghost use Rattle.std.specs.Prelude.{◌≤◌, ◌^◌, ◌-◌};
ghost use Rattle.ipc_model.specs.MaxLimits.{max_body, max_depth, max_fields, max_metadata};
ghost use Rattle.ipc_model.specs.MaxLimits.{max_pairs, max_slots, max_text};

use crate::check::pair_text;
use ipc_items::Text;

/// The maximum number of bytes of data of a column with offsets of 32 bits, whatever the limits
/// (Arrow Columnar Format, "Variable-size Binary Layout").
pub const MAX_DATA: u64 = 0x7fff_ffff;

/// The greatest limit of the bytes of a message's metadata.
pub const MAX_METADATA: u64 = 1 << 28;

/// The greatest limit of the bytes of a message's body.
pub const MAX_BODY: u64 = 1 << 42;

/// The greatest limit of the rows of a batch and of the slots of a column (Arrow Columnar Format,
/// "Array lengths").
pub const MAX_SLOTS: u64 = 0x7fff_ffff;

/// The greatest limit of the fields of a schema.
pub const MAX_FIELDS: u64 = 1 << 20;

/// The greatest limit of the depth to which fields nest.
pub const MAX_DEPTH: u64 = 64;

/// The greatest limit of the bytes of names, keys, values and timezones.
pub const MAX_TEXT: u64 = 1 << 30;

/// The greatest limit of the pairs of key and value.
pub const MAX_PAIRS: u64 = 1 << 24;

/// Limits on what one stream, schema or batch may hold, for what a reader accepts and what a writer
/// makes. Each value is at most its maximum, which is part of the type.
///
/// `Limits::standard()` has values that fit what is written in practice. The standard bounds slots
/// and the data of a column by lengths and offsets of 32 bits. The other limits are those of this
/// library.
#[derive(Clone, Copy, Debug, PartialEq, Eq)]
pub struct Limits {
    /// The maximum number of bytes of a message's metadata, padding included: at most 2^28.
    pub metadata: u64,
    /// The maximum number of bytes of a message's body: at most 2^42.
    pub body: u64,
    /// The maximum number of rows of a batch, and of slots of a column: at most 2^31 - 1 (Arrow
    /// Columnar Format, "Array lengths").
    pub slots: u64,
    /// The maximum number of fields of a schema, descendants included: at most 2^20.
    pub fields: u64,
    /// The maximum nesting of fields: at most 64. A column has depth 1.
    pub depth: u64,
    /// The maximum number of bytes of a schema's names, keys, values and timezones together, and of
    /// the keys and values of one batch: at most 2^30.
    pub text: u64,
    /// The maximum number of pairs of key and value of a schema and its fields together, and of one
    /// batch: at most 2^24.
    pub pairs: u64,
    pub ghost metadata_fits: { metadata ≤ max_metadata },
    pub ghost body_fits: { body ≤ max_body },
    pub ghost slots_fit: { slots ≤ max_slots },
    pub ghost fields_fit: { fields ≤ max_fields },
    pub ghost depth_fits: { depth ≤ max_depth },
    pub ghost text_fits: { text ≤ max_text },
    pub ghost pairs_fit: { pairs ≤ max_pairs },
}

impl Limits {
    ghost use Rattle.std.specs.Prelude.{◌↔◌, IsTrue, IsSome, IfSome};
    ghost use Rattle.ipc_model.specs.Limits.{IsStandard, Covers, HaveLimitValues, AreAllowed};
    ghost use Rattle.ipc_model.specs.Entries.{AllowPairs};

    /// Returns limits that fit what is written in practice: metadata of 2^24 bytes, bodies of 2^40
    /// bytes, `2^31 - 1` slots, 65,536 fields, a depth of 64, 2^26 bytes of text, and 2^20 pairs.
    pub fn standard() -> Limits
        ensures { IsStandard result }
    {
        Limits {
            metadata: 1 << 24,
            body: 1 << 40,
            slots: 0x7fff_ffff,
            fields: 65_536,
            depth: 64,
            text: 1 << 26,
            pairs: 1 << 20,
        }
    }

    /// Creates limits with these values. Returns `None` exactly if a value is above its maximum.
    pub fn new(
        metadata: u64,
        body: u64,
        slots: u64,
        fields: u64,
        depth: u64,
        text: u64,
        pairs: u64,
    ) -> Option<Limits>
        ensures values { IfSome result
            (λ limits. HaveLimitValues limits metadata body slots fields depth text pairs) }
        ensures some { IsSome result ↔ AreAllowed metadata body slots fields depth text pairs }
    {
        if !Limits::are_allowed(metadata, body, slots, fields, depth, text, pairs) {
            return None;
        }
        Some(Limits {
            metadata,
            body,
            slots,
            fields,
            depth,
            text,
            pairs,
        })
    }

    // Whether limits may have these values: none is above its greatest.
    fn are_allowed(
        metadata: u64,
        body: u64,
        slots: u64,
        fields: u64,
        depth: u64,
        text: u64,
        pairs: u64,
    ) -> bool
        ensures { IsTrue result ↔ AreAllowed metadata body slots fields depth text pairs }
    {
        metadata <= MAX_METADATA
            && body <= MAX_BODY
            && slots <= MAX_SLOTS
            && fields <= MAX_FIELDS
            && depth <= MAX_DEPTH
            && text <= MAX_TEXT
            && pairs <= MAX_PAIRS
    }

    /// Returns whether no value is below the corresponding value of `others`. Then all that is
    /// within `others` is within these limits.
    pub fn covers(&self, others: &Limits) -> bool
        ensures { IsTrue result ↔ Covers self.now others.now }
    {
        self.metadata >= others.metadata
            && self.body >= others.body
            && self.slots >= others.slots
            && self.fields >= others.fields
            && self.depth >= others.depth
            && self.text >= others.text
            && self.pairs >= others.pairs
    }

    /// Returns whether one batch may have these pairs of key and value: there are at most `pairs`
    /// of them, and their keys and values have at most `text` bytes together.
    pub fn allow_pairs(&self, pairs: &[(Text, Text)]) -> bool
        ensures { IsTrue result ↔ AllowPairs self.now pairs.now }
    {
        pairs.len() as u64 <= self.pairs && pair_text(0, pairs) <= self.text
    }
}

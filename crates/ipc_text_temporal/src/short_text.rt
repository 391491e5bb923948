ghost use Rattle.std.specs.Prelude.{◌≡◌, ◌≤◌, take};
ghost use Rattle.ipc_text_temporal.specs.ShortTexts.{IsPlain};

use std::marker::Model;

/// A text of at most 32 bytes. It takes no memory. Contracts describe it by its bytes.
#[derive(Drop)]
pub struct ShortText {
    bytes: [u8; 32],
    len: usize,
}

impl Model for ShortText {
    ghost use Rattle.std.specs.Prelude.{List, ℕ, take, ◌≤◌};
    ghost use Rattle.ipc_text_temporal.specs.ShortTexts.{IsPlain};

    ghost Value = { List ℕ };

    ghost view = { λ s. take s.len s.bytes };

    ghost invariant = { λ s. (s.len ≤ 32) × IsPlain (take s.len s.bytes) };
}

impl ShortText {
    /// Creates the text of the first `len` bytes.
    pub(crate) fn new(bytes: [u8; 32], len: usize) -> ShortText
        requires len { len ≤ 32 }
        requires plain { IsPlain (take len bytes) }
        ensures { result ≡ take len bytes }
    {
        ShortText { bytes, len }
    }

    /// Returns the text, which is ASCII.
    #[tactic(auto, using(crate::proofs::Ascii::plain_is_utf8))]
    pub fn as_str(&self) -> &str
        ensures { result.now ≡ self.now }
    {
        unsafe { str::from_utf8_unchecked(&self.bytes[..self.len]) }
    }
}

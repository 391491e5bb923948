ghost use Rattle.std.specs.Prelude.{◌<◌, length};

/// The bytes of one message, none of which is sent yet (Arrow Columnar Format, "Encapsulated
/// message format").
#[derive(Debug, Drop)]
pub struct Message {
    /// The bytes before the body.
    pub front: Vec<u8>,
    pub body: Vec<u8>,
    ghost some: { 0 < length front.items },
}

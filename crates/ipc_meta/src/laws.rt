ghost use Rattle.ipc_meta.specs.Laws.{OneHead, RoomByCounts, DictionaryRoomByCounts};

/// The law: given metadata states at most one head and one length of the body (Message.fbs, table
/// Message).
pub fn one_head_per_metadata()
    ensures { OneHead }
{}

/// The law: the size bound of a record batch's metadata depends only on the numbers of its nodes
/// and buffers.
pub fn room_by_counts()
    ensures { RoomByCounts }
{}

/// The law: the size bound of a dictionary batch's metadata depends only on the numbers of its
/// nodes and buffers.
pub fn dictionary_room_by_counts()
    ensures { DictionaryRoomByCounts }
{}

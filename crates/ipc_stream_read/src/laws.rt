ghost use Rattle.ipc_stream_read.specs.Laws.{NoneBegins, OneFront, OneTable, Wider};
ghost use Rattle.ipc_stream_read.specs.PieceFeeds.{AnyPieces, TablePieces};
ghost use Rattle.ipc_stream_read.specs.Verdicts.{AnyCut, OneVerdict};

/// The law: bytes denote at most one table with one end (Arrow Columnar Format, "IPC Streaming
/// Format").
pub fn one_table()
    ensures { OneTable }
{}

/// The law: if bytes denote a table with the end-of-stream mark, no longer bytes that begin with
/// them denote a table.
pub fn none_begins()
    ensures { NoneBegins }
{}

/// The law: bytes that denote a table with the end-of-stream mark are read in one way, whatever
/// follows them. So what is written is read back, and what follows it remains unread.
pub fn one_front()
    ensures { OneFront }
{}

/// The law: bytes that denote a table under some limits denote it under all limits that cover them.
pub fn wider()
    ensures { Wider }
{}

/// The law: the beginning of a stream has at most one verdict. The verdict states which messages
/// are complete, and whether the bytes after them are undecided, end the stream or are refused.
pub fn one_verdict()
    ensures { OneVerdict }
{}

/// The law: the verdict about bytes does not depend on where they are cut. What the bytes before a
/// cut lead to is all that the verdict about the bytes after it depends on.
pub fn any_cut()
    ensures { AnyCut }
{}

/// The law: what a decoder returns for pieces, its events and its refusal, is the verdict about
/// their bytes. So it does not depend on how the bytes are cut, unless memory runs out.
pub fn any_pieces()
    ensures { AnyPieces }
{}

/// The law: a decoder returns exactly the table that bytes with the end-of-stream mark denote,
/// whatever follows them and however they are cut into pieces. What follows them is not taken.
pub fn table_pieces()
    ensures { TablePieces }
{}

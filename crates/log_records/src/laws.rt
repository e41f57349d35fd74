//! Laws of records: what is written is read again.

ghost use Rattle.log_records.specs.Laws.{PartsAgain, NodeAgain, ChildAgain, ChunkAgain};

/// A record has the key, the value and the mark of which it was made.
pub fn parts_again()
    ensures { PartsAgain }
{}

/// A node's value is read as that node.
pub fn node_again()
    ensures { NodeAgain }
{}

/// A name's value is read as its child.
pub fn child_again()
    ensures { ChildAgain }
{}

/// A chunk's value is read as its bytes.
pub fn chunk_again()
    ensures { ChunkAgain }
{}

//! Laws of the tree that live records make.

ghost use Rattle.log_tree.specs.Laws.{OfChunk, OfInside, OfName, OfNode, RootIsHeld};
ghost use Rattle.log_tree.specs.Room.{HasRoom};

/// A node's record puts the node or takes it out.
pub fn of_node()
    ensures { OfNode }
{}

/// A record of a name or a chunk changes its node alone.
pub fn of_inside()
    ensures { OfInside }
{}

/// A name's record gives its directory the name or takes it out.
pub fn of_name()
    ensures { OfName }
{}

/// A chunk's record puts its bytes in their place, or ends the bytes there.
pub fn of_chunk()
    ensures { OfChunk }
{}

/// A root without names is held, whatever the limits.
pub fn root_is_held()
    ensures { RootIsHeld }
{}

/// A half has room for the records of a tree within the limits.
pub fn has_room()
    ensures { HasRoom }
{}

// Laws of heads and payloads. The functions do nothing.
ghost use Rattle.event_room.specs.Heads.{MessagesSplit, OpsSplit};

/// The head and the payload of a message are the message, and are found in it again. A message without a payload, as a
/// BIConflict, counts as one of zeros (own rule).
pub fn message_parts()
    ensures { MessagesSplit }
{}

/// The head and the payload of an operation are the operation, and are found in it again (own rule).
pub fn op_parts()
    ensures { OpsSplit }
{}

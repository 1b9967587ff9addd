// The first pass over some bytes: whether they are a trace, and what comes before its first event.
ghost use Rattle.std.specs.Prelude.{◌≡◌, ◌≢◌, ◌≤◌, Err, IfOk, length};
ghost use Rattle.trace_stream.specs.Runs.{HasFault};
ghost use Rattle.trace_stream.specs.declared.items.TraceFault.{TraceFault as AFault};
ghost use Rattle.trace_migration.specs.Heads.{IsHeadOf};
ghost use Rattle.trace_migration.specs.declared.refusals.MigrateRefusal.{MigrateRefusal as Refusal};

use crate::heads::Head;
use crate::refusals::MigrateRefusal;
use crate::walks::Walk;
use std::alloc::Global;
use trace_stream::Room;

/// Reads all of the bytes. It answers what comes before the first event of the trace that they are.
pub fn survey(alloc: Global, bytes: &[u8]) -> Result<Head, MigrateRefusal>
    requires short { length bytes.now ≤ 67108864 }
    ensures trace { IfOk result (λ head. IsHeadOf bytes.now head) }
    ensures fault { (fault : AFault) → result ≡ Err (Refusal.NotATrace fault) → HasFault bytes.now fault }
    ensures no_write { result ≢ Err Refusal.WriteFault }
{
    let mut walk = Walk::over(alloc, bytes)?;
    let mut room = Room::new();
    let mut head = Head::new(alloc, room.setup);
    while let Some(found) = walk.next(&mut room) {
        head.take(found, &room)?;
    }
    walk.finish()?;
    Ok(head)
}

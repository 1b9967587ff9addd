// The migration of a trace.
ghost use Rattle.std.specs.Prelude.{◌≡◌, ◌⊎◌, ◌^◌, ◌<◌, ◌≤◌, Err, IsErrOf, OnErr, OnOk, length};
ghost use Rattle.outside_io.specs.Counts.{TellsFaults};
ghost use Rattle.trace_stream.specs.Runs.{HasFault};
ghost use Rattle.trace_stream.specs.declared.items.TraceFault.{TraceFault as AFault};
ghost use Rattle.trace_migration.specs.Migrations.{Migrates, MigratesFront};
ghost use Rattle.trace_migration.specs.declared.refusals.MigrateRefusal.{MigrateRefusal as Refusal};

use crate::putting::write_migrated;
use crate::refusals::MigrateRefusal;
use crate::surveys::survey;
use outside_io::Sink;
use std::alloc::Global;

/// Writes the trace of version 2 with the setup, the names, the opening and the events of the trace of either version that
/// the bytes are, at most 67,108,864 of them (own rule). Nothing is written before all of the bytes are known to be a
/// trace. The sink has counted fewer than 2 to the 62nd.
///
/// `NotATrace` comes only where the bytes aren't a trace, with the first place where; then no other answer comes but
/// `Memory`, and the sink is as it was. `WriteFault` comes exactly where the sink counted a fault. After each refusal the
/// first bytes of what the trace is migrated to are in the sink, perhaps none.
pub fn migrate<K: Sink>(alloc: Global, bytes: &[u8], sink: &mut K) -> Result<(), MigrateRefusal>
    requires short { length bytes.now ≤ 67108864 }
    requires sink_counts { K.highest_count sink.old < 2 ^ 62 }

    ensures migrated { OnOk result (Migrates (K.gone sink.old) (K.gone sink.new) bytes.now) }
    ensures not_a_trace { (fault : AFault) → result ≡ Err (Refusal.NotATrace fault) → HasFault bytes.now fault }
    ensures no_other { (fault : AFault) → HasFault bytes.now fault → (result ≡ Err (Refusal.NotATrace fault)) ⊎ (result ≡ Err Refusal.Memory) }
    ensures untouched { (fault : AFault) → HasFault bytes.now fault → sink.new ≡ sink.old }
    ensures cut_short { OnErr result (MigratesFront (K.gone sink.old) (K.gone sink.new) bytes.now) }
    ensures faults { TellsFaults (K.faults sink.old) (K.faults sink.new) (IsErrOf result Refusal.WriteFault) }
{
    let head = survey(alloc, bytes)?;
    write_migrated(alloc, bytes, &head, sink)?;
    Ok(())
}

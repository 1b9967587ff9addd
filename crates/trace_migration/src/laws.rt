// Laws of migration, for all bytes. The functions do nothing.
ghost use Rattle.trace_migration.specs.Laws.{EachTraceIsMigrated, FaultsAreNotMigrated, MigratedIsATrace, MigratedStays, OneMigration};

use cxl_codec::one_trace;
use trace_stream::traces_are_read;

/// Each trace is migrated to the bytes of version 2 of its setup, names, opening and events, and to nothing else (own
/// rule).
pub fn each_trace_is_migrated()
    ensures one { EachTraceIsMigrated }
    ensures no_other { OneMigration }
{
    one_trace();
}

/// What a trace is migrated to is a trace of version 2, with the same setup, names, opening and events: so a verdict on
/// its events is that on the trace that it comes from (own rule).
pub fn migrated_is_a_trace()
    ensures { MigratedIsATrace }
{
    one_trace();
}

/// What was migrated is migrated to the same bytes (own rule).
pub fn migrated_stays()
    ensures { MigratedStays }
{
    one_trace();
}

/// Bytes that are no trace are migrated to nothing (own rule).
pub fn faults_are_not_migrated()
    ensures { FaultsAreNotMigrated }
{
    traces_are_read();
}

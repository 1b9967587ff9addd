// Laws of the records, for every value and all bytes. The functions do nothing.
ghost use Rattle.cxl_codec.specs.Header.{HeaderFits, VersionedFits, header_cells, versioned_cells};
ghost use Rattle.cxl_codec.specs.Openings.{opening_cells, OpeningFits};
ghost use Rattle.cxl_codec.specs.Events.{event_cells, event_cells_in, EventFits, EventFitsIn};
ghost use Rattle.cxl_codec.specs.NameRecord.{name_cells, NameFits};
ghost use Rattle.cxl_codec.specs.declared.versions.Version.{Version};
ghost use Rattle.cxl_codec.specs.EndRecord.{end_cells, EndFits};
ghost use Rattle.cxl_codec.specs.Traces.{TraceIsDetermined};
ghost use Rattle.cxl_codec.specs.Grammar.{HasOneSpelling, HasOneAnswer, IsReadAgain};

/// The bytes of a record determine its value, whatever follows them, so no record is a proper prefix of another one of
/// its kind (own rule).
pub fn one_spelling()
    ensures headers { HasOneSpelling HeaderFits header_cells }
    ensures headers_in { HasOneSpelling VersionedFits versioned_cells }
    ensures openings { HasOneSpelling OpeningFits opening_cells }
    ensures names { HasOneSpelling NameFits name_cells }
    ensures events { HasOneSpelling EventFits event_cells }
    ensures events_in { (version : Version) → HasOneSpelling (EventFitsIn version) (event_cells_in version) }
    ensures ends { HasOneSpelling EndFits end_cells }
{}

/// Bytes have at most one answer: one value with its length, or one refusal with its place and field. So what a decoder
/// answers comes exactly where the grammar says so (own rule).
pub fn one_answer()
    ensures headers { HasOneAnswer HeaderFits header_cells }
    ensures headers_in { HasOneAnswer VersionedFits versioned_cells }
    ensures openings { HasOneAnswer OpeningFits opening_cells }
    ensures names { HasOneAnswer NameFits name_cells }
    ensures events { HasOneAnswer EventFits event_cells }
    ensures events_in { (version : Version) → HasOneAnswer (EventFitsIn version) (event_cells_in version) }
    ensures ends { HasOneAnswer EndFits end_cells }
{}

/// What was encoded is decoded again, whatever follows it (own rule).
pub fn read_again()
    ensures headers { IsReadAgain HeaderFits header_cells }
    ensures headers_in { IsReadAgain VersionedFits versioned_cells }
    ensures openings { IsReadAgain OpeningFits opening_cells }
    ensures names { IsReadAgain NameFits name_cells }
    ensures events { IsReadAgain EventFits event_cells }
    ensures events_in { (version : Version) → IsReadAgain (EventFitsIn version) (event_cells_in version) }
    ensures ends { IsReadAgain EndFits end_cells }
{}

/// The bytes of a trace determine its version, its setup, its names, its openings and its events (own rule).
pub fn one_trace()
    ensures { TraceIsDetermined }
{}

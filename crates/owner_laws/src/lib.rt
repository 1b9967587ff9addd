//! The law of every run on owners: everything that is open is in one place, and all that is under way belongs to something.
#![tactic(auto)]

ghost use Rattle.owner_laws.specs.Owned.{RequestsArePlaced};

/// After every run of a setup within its limits each open request, eviction, write-back and conflict of every host is in exactly
/// one place, each message of Req, RwD, NDR and DRS, in flight or buffered, has its owner, and each request task is that of an open
/// request (CXL 3.1, chapter 3: Req, RwD, NDR and DRS, the conflict handshake; own rule: the places, the owners).
pub fn requests_are_placed()
    ensures { RequestsArePlaced }
{}

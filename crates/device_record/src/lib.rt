//! What the device agent keeps, as a record: what it answers by the record, which acts it allows, and what each event
//! leaves of it. There is no code here: `device_laws` proves that the record is what looking back over the device's own
//! events gives, and `device_engine` keeps it.
#![tactic(auto)]

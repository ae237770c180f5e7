// Identities (MS-DTYP's SIDs), read in place from lent bytes. Knows nothing of lists or tokens.
#![tactic(auto)]

mod sid;

pub use sid::{is_owner_rights, is_sid, is_virtual, sid_end};

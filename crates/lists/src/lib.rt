// Lists and descriptors (MS-DTYP), read in place from lent bytes. Knows nothing of tokens.
#![tactic(auto)]

mod acl;
mod by_length;
mod descriptor;

pub use acl::{Ace, Rights, ace_at, acl_end, entry_end, is_callback, scan_entries};
pub use by_length::ace_by_length;
pub use descriptor::{Descriptor, Extent, Refusal, dacl, group, owner, part, read, sacl};

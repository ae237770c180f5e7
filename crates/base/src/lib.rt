// Bytes by place and numbers in sevens, read from lent bytes. Knows nothing of
// identities, lists or tokens.
#![tactic(auto)]

mod bytes;
mod sevens;

pub use bytes::{same, u16_at, u32_at, u64_at};
pub use sevens::{Num, number32, number48, number64, word32};

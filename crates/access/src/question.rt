// What is asked, and why it may be refused.
ghost use Rattle.std.specs.Prelude.{◌≡◌};
ghost use Rattle.access.specs.Refusals.{number_of, of_token, of_descriptor, of_policy};

use lists::Rights;

// A question: an object kind, a desired mask, a token record, a self identity, which may be empty, a
// descriptor and a policy, which may be empty.
#[derive(Clone, Copy)]
pub struct Question<'a> {
    pub kind: u32,
    pub mask: Rights,
    pub token: &'a [u8],
    pub me: &'a [u8],
    pub descriptor: &'a [u8],
    pub policy: &'a [u8],
}

// Why a question is refused, in the page's order.
#[derive(Clone, Copy, PartialEq, Eq)]
pub enum Refusal {
    // Kind and mask.
    UnknownKind = 1,
    ForeignMask = 2,
    // The token record.
    TokenMisshapen = 3,
    TokenBreaksRule = 4,
    // The self identity.
    SelfUnfit = 5,
    // The descriptor.
    DescriptorMisshapen = 6,
    Ownerless = 7,
    ForeignEntry = 8,
    // The policy.
    PolicyMisshapen = 9,
    PolicyUnread = 10,
    // The lent buffer is too short.
    TooLong = 11,
    // The question file.
    FileMisshapen = 12,
}

impl Refusal {
    // The page's number.
    pub fn number(self) -> u32
        ensures { result ≡ number_of self }
    {
        self as u32
    }
}

impl From<tokens::Refusal> for Refusal {
    ghost from_gives = { λ e r. r ≡ of_token e };

    fn from(e: tokens::Refusal) -> Refusal {
        match e {
            tokens::Refusal::Misshapen => Refusal::TokenMisshapen,
            tokens::Refusal::BreaksRule => Refusal::TokenBreaksRule,
            tokens::Refusal::TooLong => Refusal::TooLong,
        }
    }
}

impl From<lists::Refusal> for Refusal {
    ghost from_gives = { λ e r. r ≡ of_descriptor e };

    fn from(e: lists::Refusal) -> Refusal {
        match e {
            lists::Refusal::Misshapen => Refusal::DescriptorMisshapen,
            lists::Refusal::Ownerless => Refusal::Ownerless,
            lists::Refusal::ForeignEntry => Refusal::ForeignEntry,
        }
    }
}

impl From<policy::Refusal> for Refusal {
    ghost from_gives = { λ e r. r ≡ of_policy e };

    fn from(e: policy::Refusal) -> Refusal {
        match e {
            policy::Refusal::Misshapen => Refusal::PolicyMisshapen,
            policy::Refusal::Unread => Refusal::PolicyUnread,
        }
    }
}

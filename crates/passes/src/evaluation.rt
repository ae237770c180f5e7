// What a walk over a list comes to: in normal evaluation, and in confinement.
ghost use Rattle.std.specs.Prelude.{◌≡◌};
ghost use Rattle.passes.specs.OneWalk.{listed_by, normal_by};
ghost use Rattle.passes.specs.NormalEvaluation.{owner_gives, privileges_give};

use crate::matching::Hits;
use crate::walk::Walked;
use lists::Rights;
use masks::{Tally, all_bits, when};

// What the list alone gives; a null DACL, which is not present, gives the kind's all bits. In
// confinement this is all.
// kept: `present` stands beside the walk and makes no option of it: the definitions `listed_by` and
// `normal_by` read both, and a null DACL is walked too, over no entries.
pub fn listed(kind: u32, present: bool, walked: Walked) -> Rights
    ensures { result.0 ≡ listed_by kind present walked }
{
    if present {
        walked.allowed
    } else {
        all_bits(kind)
    }
}

// The owner's two rights, where the owner matches for allow and no entry that counts names S-1-3-4.
fn owner_gives(hits: Hits, named: bool) -> Rights
    ensures { result.0 ≡ owner_gives hits named }
{
    when(hits.owner.allow && !named, Tally::OWNERS)
}

// What SeTakeOwnership (bit 9) and SeSecurity (bit 8) add.
fn privileges_give(privileges: u64) -> Rights
    ensures { result.0 ≡ privileges_give privileges }
{
    let take = when(privileges & 0x200 != 0, Tally::TAKE_OWNERSHIP);
    let security = when(privileges & 0x100 != 0, Tally::SYSTEM_SECURITY);
    Rights(take.0 | security.0)
}

// Normal evaluation: the list, the owner's rights and the privileges.
#[tactic(auto, unfolding(crate::specs::OneWalk::normal_by))]
pub fn normal(kind: u32, present: bool, walked: Walked, hits: Hits, privileges: u64) -> Rights
    ensures { result.0 ≡ normal_by kind present walked hits privileges }
{
    let list = listed(kind, present, walked);
    let owner = owner_gives(hits, walked.named);
    let added = privileges_give(privileges);
    Rights(list.0 | (owner.0 | added.0))
}

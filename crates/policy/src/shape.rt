// The shape of a policy, and the numbers 9 and 10. What its lists say is read elsewhere.
ghost use Rattle.std.specs.Prelude.{◌≡◌};
ghost use Rattle.policy.specs.Standing.{judged};
ghost use Rattle.policy.specs.Policy.{rules_shaped, rules_unread, standing, standing_of};

use crate::one_rule::rule_at;

// Why a policy is refused; the page's numbers are 9 and 10.
#[derive(Clone, Copy, PartialEq, Eq)]
pub enum Refusal {
    Misshapen,
    Unread,
}

// Judges `n` rules that stand back to back after the heading, with nothing after them.
// kept: no walk by `Rules`, since each rule is judged here, and the place after the last is asked.
fn judge_rules(s: &[u8], n: u32) -> Result<(), Refusal>
    ensures { result ≡ judged (standing (rules_shaped s.now n 5) (rules_unread s.now n 5)) }
{
    let mut unread = false;
    let mut at: usize = 5;
    for _ in 0..n {
        let Some(r) = rule_at(s, at) else {
            return Err(Refusal::Misshapen);
        };
        unread |= r.unread;
        at = r.next;
    }
    if at != s.len() {
        return Err(Refusal::Misshapen);
    }
    if unread {
        return Err(Refusal::Unread);
    }
    Ok(())
}

// Judges a policy. "An empty policy means none."
pub fn judge_policy(s: &[u8]) -> Result<(), Refusal>
    ensures { result ≡ judged (standing_of s.now) }
{
    if s.is_empty() {
        return Ok(());
    }
    if 262144 < s.len() || s.len() < 5 || s[0] != 1 {
        return Err(Refusal::Misshapen);
    }
    let n = base::u32_at(s, 1);
    if 256 < n {
        return Err(Refusal::Misshapen);
    }
    judge_rules(s, n)
}

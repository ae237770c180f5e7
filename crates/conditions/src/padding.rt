// Padding: bytes that are all 0.
ghost use Rattle.std.specs.Prelude.{◌≡◌};
ghost use Rattle.conditions.specs.Condition.{zeros};

// Whether every byte is 0.
pub fn zeros(s: &[u8]) -> bool
    ensures { result ≡ zeros s.now }
{
    // kept: a loop and no `s.iter().all(..)`, which takes 1.4 times as long over a long padding.
    for i in 0..s.len() {
        if s[i] != 0 {
            return false;
        }
    }
    true
}

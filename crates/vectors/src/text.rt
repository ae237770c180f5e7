// Numbers of a text.
ghost use Rattle.vectors.specs.Line.{NumberLine};

use testkit::after;

// Whether a number in decimal digits and a line end stand at a place.
pub(crate) fn ends_with_number(text: &[u8], at: usize, n: u32) -> bool
    ensures { NumberLine text.now at n result }
{
    let mut digits = [0u8; 20];
    // kept: the digits of the kit's `io`, since the contract says by them what a number's digits are.
    let k = io::decimal(u64::from(n), &mut digits);
    let Some(end) = after(text, at, &digits[0..k]) else {
        return false;
    };
    after(text, end, b"\n").is_some()
}

// Cases of a question.
use crate::text::ends_with_number;
use answers::Answer;
use lists::Rights;
use testkit::{after, bytes_of};

fn after_flag(line: &[u8], at: usize, flag: bool) -> Option<usize> {
    if flag {
        after(line, at, b"yes")
    } else {
        after(line, at, b"no")
    }
}

// The place after the two flags of an answer and a line end, which stand at a place.
fn after_flags(text: &[u8], at: usize, a: Answer) -> Option<usize> {
    let allowed = after(text, at, b" allowed ")?;
    let staged = after(text, after_flag(text, allowed, a.allowed)?, b" staged ")?;
    let end = after_flag(text, staged, a.staged)?;
    after(text, end, b"\n")
}

// The place after a mask in eight digits, which stand behind some words at a place.
fn after_mask(text: &[u8], at: usize, words: &[u8], mask: Rights) -> Option<usize> {
    let mut digits = [0u8; 16];
    let k = io::hex(u64::from(mask.0), 8, &mut digits);
    after(text, after(text, at, words)?, &digits[0..k])
}

// The place after the line of the four masks, which stands at a place.
fn after_masks(text: &[u8], at: usize, a: Answer) -> Option<usize> {
    let normal = after_mask(text, at, b"masks = 0x", a.normal)?;
    let confined = after_mask(text, normal, b" 0x", a.confined)?;
    let ruled = after_mask(text, confined, b" 0x", a.ruled)?;
    let granted = after_mask(text, ruled, b" 0x", a.granted)?;
    after(text, granted, b"\n")
}

// The place after the two lines of an answer that is not refused.
fn after_answer(text: &[u8], a: Answer) -> Option<usize> {
    let granted = after_mask(text, 0, b"granted 0x", a.granted)?;
    after_masks(text, after_flags(text, granted, a)?, a)
}

fn is_without_masks(a: Answer) -> bool {
    a.normal.0 == 0 && a.confined.0 == 0 && a.ruled.0 == 0 && a.granted.0 == 0
}

// Whether a text begins with the line that is printed for an answer and, where it is not refused,
// the line of its masks.
fn is_told(text: &[u8], a: Answer) -> bool {
    if a.status == 0 {
        return after_answer(text, a).is_some();
    }
    match after(text, 0, b"refused ") {
        Some(at) => is_without_masks(a) && ends_with_number(text, at, a.status),
        None => false,
    }
}

// Whether the question in hexadecimal digits has the answer that the text begins with. The buffer
// has room for a file that is too long by one byte. Compiled apart, so that the buffer is not on the
// stack beside those of a conversion.
#[inline(never)]
pub(crate) fn agrees(hex: &[u8], text: &[u8]) -> bool {
    // kept: a buffer a byte longer than the longest file, so that a longer one is asked too.
    let mut file = [0u8; 65538];
    let Some(n) = bytes_of(hex, b'\n', &mut file) else {
        return false;
    };
    is_told(text, questions::question(&file[0..n]))
}

// Files of cases: their lines, words and hexadecimal bytes.
ghost use Rattle.std.specs.Prelude.{◌≡◌, ◌-◌, ◌<◌, ◌≤◌, ◌==◌, length, take, drop};
ghost use Rattle.std.specs.List.{position};
ghost use Rattle.std.specs.Prelude.{IfOk, IfSome, MatchOption};
ghost use Rattle.std.specs.Iterator.{at_most};
ghost use Rattle.testkit.specs.Text.{after, found, next_line, digit, byte_of, under};
ghost use Rattle.testkit.specs.Text.{hex_bytes, counted};

use crate::printing::print;
use std::fs::File;
use std::io;
use std::io::Read;

// Reads a file into a buffer and answers how many bytes it has: 0, after a line that says why,
// where it cannot be opened or leaves no room in the buffer. A read or a write that fails is an
// error.
// kept: a buffer that is lent, and a count: a Vec can run out of memory where this cannot.
pub fn read(rt: &HostRuntime, name: &[u8], out: &mut [u8]) -> io::Result<usize>
    ensures { IfOk result (λ n. n ≤ length out.new) }
{
    let opened = files::path(name).and_then(|path| File::open(rt, path));
    let Some(mut file) = files::told(rt, name, opened)? else {
        return Ok(0);
    };
    let n = fill(&mut file, out)?;
    if n == out.len() {
        print(rt, name)?;
        print(rt, b": too long\n")?;
        return Ok(0);
    }
    Ok(n)
}

// Reads until a buffer is full or the file ends, and answers how many bytes that are.
// kept: a place that each read moves by as much as it gave: there is no range to go through.
fn fill(file: &mut impl Read, out: &mut [u8]) -> io::Result<usize>
    ensures { IfOk result (λ n. n ≤ length out.new) }
{
    let mut done = 0;
    while done < out.len() {
        let n = file.read(&mut out[done..])?;
        if n == 0 {
            break;
        }
        done += n;
    }
    Ok(done)
}

// The place after the words that stand at a place.
#[tactic(auto, unfolding(crate::specs::Text::after))]
pub fn after(text: &[u8], at: usize, words: &[u8]) -> Option<usize>
    ensures { result ≡ found (after text.now at words.now) }
{
    let end = at.checked_add(words.len())?;
    let there = text.get(at..end)?;
    base::same(there, words).then_some(end)
}

// The place of the first line end.
fn line_end(text: &[u8]) -> Option<usize>
    ensures { result ≡ position (λ b. b == 10) text.now }
{
    text.iter().position(|b| *b == b'\n')
}

// Where the line after the one at a place begins: past its line end, or at the end of the text. Less
// of the text is left there, if any was.
pub fn next_line(text: &[u8], at: usize) -> usize
    ensures value { result ≡ next_line text.now at }
    ensures upper_bound { (result ≤ length text.now)
        × (length text.now - result ≤ length text.now - at - 1) }
{
    if text.len() <= at {
        return text.len();
    }
    match line_end(&text[at..]) {
        Some(k) => at + k + 1,
        None => text.len(),
    }
}

// The first line of a text and what follows on it; none in an empty text.
pub fn first_line(text: &[u8]) -> Option<(&[u8], &[u8])>
    ensures parts { MatchOption result (length text.now ≡ 0)
        (λ p. (p.0.now ≡ take (next_line text.now 0) text.now)
        × (p.1.now ≡ drop (next_line text.now 0) text.now)) }
    ensures less { IfSome result (λ p. length p.1.now < length text.now) }
{
    if text.is_empty() {
        return None;
    }
    Some(text.split_at(next_line(text, 0)))
}

// The lines of a text, each with what follows on it.
#[derive(Drop)]
pub struct Lines<'a>(pub &'a [u8]);

impl<'a> Iterator for Lines<'a> {
    type Item = (&'a [u8], &'a [u8]);

    ghost next_gives = { λ old r new. MatchOption r (length old.0.now ≡ 0)
        (λ p. (p.0.now ≡ take (next_line old.0.now 0) old.0.now)
        × (p.1.now ≡ drop (next_line old.0.now 0) old.0.now)
        × (new.0.now ≡ p.1.now)) };

    ghost remaining = { λ s. at_most (length s.0.now) };

    fn next(&mut self) -> Option<(&'a [u8], &'a [u8])> {
        let (line, rest) = first_line(self.0)?;
        self.0 = rest;
        Some((line, rest))
    }
}

// The value of a digit.
#[tactic(auto, unfolding(crate::specs::Text::digit))]
fn digit(b: u8) -> Option<u8>
    ensures { result ≡ under 16 (digit b) }
{
    match b {
        b'0'..=b'9' => Some(b - b'0'),
        b'a'..=b'f' => Some(b - b'a' + 10),
        _ => None,
    }
}

// The byte that two digits are.
#[tactic(auto, unfolding(crate::specs::Text::byte_of))]
fn byte_of(high: u8, low: u8) -> Option<u8>
    ensures { result ≡ under 256 (byte_of high low) }
{
    Some(16 * digit(high)? + digit(low)?)
}

// Puts the bytes that a text has in pairs of digits, up to the byte `stop`, at the start of a
// buffer, and answers how many they are. They have to leave room in it.
// kept: a count, and not the part of the buffer, since `out_after` states what the buffer then has.
pub fn bytes_of(text: &[u8], stop: u8, out: &mut [u8]) -> Option<usize>
    ensures value { result ≡ counted (hex_bytes text.now stop out.old).answer }
    ensures out_after { out.new
        ≡ (hex_bytes text.now stop out.old).bytes }
    ensures length_in_bounds { IfSome result (λ n. n ≤ length out.new) }
{
    let mut rest = text;
    for (n, b) in out.iter_mut().enumerate() {
        match rest {
            [end, ..] if *end == stop => return Some(n),
            [high, low, ..] => {
                *b = byte_of(*high, *low)?;
                rest = &rest[2..];
            }
            _ => return None,
        }
    }
    None
}

#[cfg(test)]
mod tests {
    use super::*;
    use std::fs;
    use std::test::Fail;

    #[test]
    fn reads_a_file_of_data(rt: HostRuntime) -> Result<(), Fail> {
        fs::write(&rt, "testkit_reads.txt", b"ab\ncd".as_slice())?;
        let mut room = [0u8; 6];
        let all = read(&rt, b"testkit_reads.txt", &mut room);
        let none = read(&rt, b"testkit_reads.txt", &mut [0u8; 5]);
        fs::remove_file(&rt, "testkit_reads.txt")?;
        assert_eq!(rt; all?, 5);
        assert_eq!(rt; room.as_slice(), b"ab\ncd\0".as_slice());
        assert_eq!(rt; none?, 0);
        Ok(())
    }
}

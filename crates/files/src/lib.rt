// What the programs share: their arguments and the files that these name, and the line on standard
// error that says what failed. Whether an argument is there, and for a file, a program asks the system
// itself: what that answer or name means `is_given` and `path` say. What the system answers, and what
// is written, no contract can say, so of the text of an error (`reason`) nothing is stated.
#![tactic(auto)]

ghost use Rattle.std.specs.Prelude.{◌≡◌, ◌≤◌, length, take, IfOk, IfSome};
ghost use Rattle.std.specs.Prelude.{IsUtf8, MatchResult};
ghost use Rattle.std.specs.Result.{result_ok};
ghost use Rattle.files.specs.Arguments.{is_given};

use std::alloc::Global;
use std::env::{Env, FillError};
use std::io;
use std::io::Read;

// What the system says of a name that is too long, and of one that is no text.
const TOO_LONG: i32 = 36;

const NO_TEXT: i32 = 84;

// Whether there is an argument, by what the system answers for it; one that is longer than what was
// lent for it is there.
pub fn is_given(answer: Result<usize, FillError>) -> bool
    ensures { result ≡ is_given answer }
{
    !matches!(answer, Err(FillError::NotPresent))
}

// Puts the name that an argument is into a buffer, and answers how many bytes it has. It has to fit.
pub fn name(rt: &impl Env, i: usize, out: &mut [u8]) -> io::Result<usize>
    ensures { IfOk result (λ n. n ≤ length out.new) }
{
    rt.arg(i, out)
        .map_err(|_| io::Error::from_raw_os_error(TOO_LONG))
}

// The name of a file, which has to be text.
pub fn path(name: &[u8]) -> io::Result<&str>
    ensures { MatchResult result (λ p. (p.now ≡ name.now) × IsUtf8 name.now)
        (λ e. ¬ (IsUtf8 name.now)) }
{
    match str::from_utf8(name) {
        Ok(path) => Ok(path),
        Err(_) => Err(io::Error::from_raw_os_error(NO_TEXT)),
    }
}

// The first bytes of an input, as many as the limit.
pub fn read<R: Read + Drop>(alloc: Global, input: R, limit: u64) -> io::Result<Vec<u8>>
    ensures { IfOk result (λ file. IfSome (R.remaining input)
        (λ bytes. file.items ≡ take limit bytes)) }
{
    let mut file = Vec::new(alloc);
    input.take(limit).read_to_end(&mut file)?;
    Ok(file)
}

// What an error's text says before its number.
fn reason(said: &str) -> &str {
    said.split_once(" (os error ").map_or(said, |(why, _)| why)
}

// What came of something; where it failed, none, after a line to standard error: what failed, and
// why, in the system's words.
pub fn told<T: Drop>(rt: &HostRuntime, what: &[u8], outcome: io::Result<T>) -> io::Result<Option<T>>
    ensures { IfOk result (λ x. x ≡ result_ok outcome) }
{
    let error = match outcome {
        Ok(x) => return Ok(Some(x)),
        Err(e) => e,
    };
    let said = format!(in rt.alloc(); "{error}")?;
    let why = reason(&said);
    rt.stderr().write_all(what)?;
    eprintln!(rt; ": {why}")?;
    Ok(None)
}

#[cfg(test)]
mod tests {
    use super::*;
    use std::test::Fail;

    #[test]
    fn reads_the_first_bytes(rt: HostRuntime) -> Result<(), Fail> {
        let input: &[u8] = b"abcd";
        let all = read(rt.alloc(), input, 5)?;
        assert_eq!(rt; all.as_slice(), b"abcd".as_slice());
        let some = read(rt.alloc(), input, 3)?;
        assert_eq!(rt; some.as_slice(), b"abc".as_slice());
        Ok(())
    }

    #[test]
    fn says_what_failed(rt: HostRuntime) -> Result<(), Fail> {
        let failed: io::Result<u8> = Err(io::Error::from_raw_os_error(TOO_LONG));
        assert_eq!(rt; told(&rt, b"a name", failed)?, None);
        assert_eq!(rt; told(&rt, b"a name", Ok(7u8))?, Some(7));
        Ok(())
    }
}

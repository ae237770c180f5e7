// Runs the vector files: for each its name, how many cases it has and how many differ, after a line
// for each case that differs. The number of cases in `stdout` is counted apart from this program.
#![tactic(auto)]

mod ask;
mod convert;
mod text;

use convert::Form;
use std::io::Result;
use testkit::Lines;

// A question in digits, and what it is answered: `line = `, and `masks = ` where it is not refused.
fn question(hex: &[u8], rest: &[u8]) -> Option<bool> {
    let line = rest.strip_prefix(b"line = ")?;
    Some(ask::agrees(hex, line))
}

// A record in digits, and what it is turned into: `listing = `, or the number of its refusal,
// `refused = `.
fn record(hex: &[u8], rest: &[u8]) -> Option<bool> {
    if let Some(line) = rest.strip_prefix(b"refused = ") {
        return Some(convert::refused(Form::Record, Form::Listing, hex, line));
    }
    let listing = rest.strip_prefix(b"listing = ")?;
    Some(convert::both_ways(hex, listing))
}

// A listing in digits, and the number of its refusal: `refused = `.
fn listing(hex: &[u8], rest: &[u8]) -> Option<bool> {
    let line = rest.strip_prefix(b"refused = ")?;
    Some(convert::refused(Form::Listing, Form::Record, hex, line))
}

// Whether the case that begins with a line agrees, if a case does, where the rest of the text is
// what follows.
fn case(line: &[u8], rest: &[u8]) -> Option<bool> {
    if let Some(hex) = line.strip_prefix(b"ask = ") {
        return question(hex, rest);
    }
    if let Some(hex) = line.strip_prefix(b"record = ") {
        return record(hex, rest);
    }
    listing(line.strip_prefix(b"listing = ")?, rest)
}

// Goes through the text of a file, counts its cases, and writes a line where one differs and one
// for the file.
fn report(rt: &impl Print, name: &str, text: &[u8]) -> Result<()> {
    let mut cases: u64 = 0;
    let mut differ: u64 = 0;
    for (line, rest) in Lines(text) {
        let Some(agrees) = case(line, rest) else {
            continue;
        };
        cases = cases.wrapping_add(1);
        if !agrees {
            differ = differ.wrapping_add(1);
            println!(rt; "{name}: case {cases} differs")?;
        }
    }
    println!(rt; "{name}: {cases} cases, {differ} differ")
}

// Reads a vector file and runs its cases.
fn run(rt: &HostRuntime, name: &str) -> Result<()> {
    let mut text = vec![in rt.alloc(); 0u8; 524288]?;
    let n = testkit::read(rt, name.as_bytes(), &mut text)?;
    report(rt, name, &text[..n])
}

fn main(rt: HostRuntime) -> Result<()> {
    run(&rt, "cards.txt")?;
    run(&rt, "refusals.txt")?;
    run(&rt, "descriptors.txt")?;
    run(&rt, "policies.txt")?;
    run(&rt, "answers.txt")?;
    run(&rt, "large.txt")?;
    run(&rt, "tokens.txt")
}

// `ask FILE` prints the answer to the question in a file; with `-`, or without an argument, it
// reads standard input. `ask why FILE` prints the same line and then the four masks, a line each;
// `ask trail FILE` the same line and then the events of the audit trail, a line each. What answer
// and trail are, refusals included, is for `questions::question` and `questions::trail_question`
// to say. A read or a write that fails is said on standard error, and the exit status is 0 all the
// same; only where standard error fails too, or memory for what is said there, is it 1.
#![tactic(auto)]

ghost use Rattle.std.specs.Prelude.{◌≡◌, take, IfOk, IfSome};

use answers::Answer;
use lists::Rights;
use std::alloc::Global;
use std::env::Env;
use std::fs::File;
use std::io::Read;
use std::{fmt, io};

// What is asked of the question.
#[derive(Clone, Copy)]
enum Task {
    Ask,
    Why,
    Trail,
}

// A flag, as it is printed.
#[derive(Clone, Copy)]
struct Flag(bool);

impl fmt::Display for Flag {
    fn fmt<W: fmt::Write>(&self, f: &mut fmt::Formatter<W>) -> fmt::Result {
        f.write_str(if self.0 { "yes" } else { "no" })
    }
}

// The line of an answer.
#[derive(Clone, Copy)]
struct Line(Answer);

impl fmt::Display for Line {
    fn fmt<W: fmt::Write>(&self, f: &mut fmt::Formatter<W>) -> fmt::Result {
        let a = self.0;
        if a.status != 0 {
            return write!(f, "refused {}", a.status);
        }
        let granted = a.granted.0;
        let allowed = Flag(a.allowed);
        let staged = Flag(a.staged);
        write!(
            f,
            "granted 0x{granted:08x} allowed {allowed} staged {staged}"
        )
    }
}

// A mask as eight digits behind its name. Each function that prints fails where not all of it was
// written.
fn print_step(rt: &impl Print, name: &str, mask: Rights) -> io::Result<()> {
    let bits = mask.0;
    println!(rt; "{name} 0x{bits:08x}")
}

// The answer's line, then a line for each mask, on refusal too.
fn print_steps(rt: &impl Print, a: Answer) -> io::Result<()> {
    rt.println(Line(a))?;
    print_step(rt, "normal", a.normal)?;
    print_step(rt, "confined", a.confined)?;
    print_step(rt, "policy", a.ruled)?;
    print_step(rt, "granted", a.granted)
}

// An event of a trail.
#[derive(Clone, Copy)]
struct Event {
    source: u64,
    entry: u64,
    mask: u64,
}

impl fmt::Display for Event {
    fn fmt<W: fmt::Write>(&self, f: &mut fmt::Formatter<W>) -> fmt::Result {
        let Event {
            source,
            entry,
            mask,
        } = *self;
        write!(f, "event source {source} entry {entry} mask 0x{mask:08x}")
    }
}

// The event that starts at a place, three numbers one after the other, and the place after it.
fn event_at(trail: &[u8], at: usize) -> Option<(Event, usize)> {
    let source = base::number32(trail, at)?;
    let entry = base::number32(trail, source.next)?;
    let mask = base::number32(trail, entry.next)?;
    let event = Event {
        source: source.value,
        entry: entry.value,
        mask: mask.value,
    };
    Some((event, mask.next))
}

// A line for each event of a trail. Where bytes are none, this ends.
fn print_events(rt: &impl Print, trail: &[u8]) -> io::Result<()> {
    let mut at: usize = 0;
    // kept: an event says itself where the next begins, so there is no range to go through.
    while at < trail.len() {
        match event_at(trail, at) {
            Some((event, next)) if at < next => {
                rt.println(event)?;
                at = next;
            }
            _ => return Ok(()),
        }
    }
    Ok(())
}

// The answer's line, then a line for each event; a refusal has none. The room is that of the
// longest trail of a question file.
// kept: buffers of a fixed size, here and for names: `trail_question` is lent one, and it cannot fail.
fn print_trail(rt: &impl Print, file: &[u8]) -> io::Result<()> {
    let mut trail = [0u8; 36864];
    let t = questions::trail_question(file, &mut trail);
    rt.println(Line(t.answer))?;
    print_events(rt, &trail[..t.length.min(trail.len())])
}

fn print_told(rt: &impl Print, file: &[u8], t: Task) -> io::Result<()> {
    match t {
        Task::Ask => rt.println(Line(questions::question(file))),
        Task::Why => print_steps(rt, questions::question(file)),
        Task::Trail => print_trail(rt, file),
    }
}

// One byte more than the longest question has, so that a longer file is seen to be too long.
const LIMIT: u64 = 65537;

// The first bytes of an input, as many as the limit.
fn read<R: Read + Drop>(alloc: Global, input: R) -> io::Result<Vec<u8>>
    ensures { IfOk result (λ file. IfSome (R.remaining input)
        (λ bytes. file.items ≡ take 65537 bytes)) }
{
    files::read(alloc, input, LIMIT)
}

// Prints what is asked of what was read under a name, or says why it was not read.
fn answer(rt: &HostRuntime, t: Task, name: &[u8], file: io::Result<Vec<u8>>) -> io::Result<()> {
    let Some(bytes) = files::told(rt, name, file)? else {
        return Ok(());
    };
    files::told(rt, b"standard output", print_told(rt, &bytes, t))?;
    Ok(())
}

// The bytes of the file that has a name.
fn read_named(rt: &HostRuntime, name: &[u8]) -> io::Result<Vec<u8>> {
    read(rt.alloc(), File::open(rt, files::path(name)?)?)
}

// The answer to standard input.
fn answer_input(rt: &HostRuntime, t: Task) -> io::Result<()> {
    answer(rt, t, b"standard input", read(rt.alloc(), rt.stdin()))
}

// The answer to the file that an argument names.
fn answer_named(rt: &HostRuntime, i: usize, t: Task) -> io::Result<()> {
    let mut path = [0u8; 4096];
    let Some(n) = files::told(rt, b"ask", files::name(rt, i, &mut path))? else {
        return Ok(());
    };
    match &path[..n] {
        b"-" => answer_input(rt, t),
        name => answer(rt, t, name, read_named(rt, name)),
    }
}

// What the first argument asks for; one that does not fit is longer than each of the words.
// kept: `token` has words of its own, so one function for both would take a table of them.
fn wanted(rt: &impl Env) -> Option<Task> {
    let mut word = [0u8; 16];
    let n = rt.arg(1, &mut word).ok()?;
    match &word[..n] {
        b"why" => Some(Task::Why),
        b"trail" => Some(Task::Trail),
        _ => None,
    }
}

fn main(rt: HostRuntime) -> io::Result<()> {
    if !files::is_given(rt.arg(1, &mut [])) {
        return answer_input(&rt, Task::Ask);
    }
    if !files::is_given(rt.arg(2, &mut [])) {
        return answer_named(&rt, 1, Task::Ask);
    }
    match wanted(&rt) {
        Some(t) if !files::is_given(rt.arg(3, &mut [])) => answer_named(&rt, 2, t),
        _ => eprintln!(rt; "usage: ask [FILE|-] | ask why FILE|- | ask trail FILE|-"),
    }
}

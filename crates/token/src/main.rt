// `token list FILE` writes the flat listing of a packed token record, and `token pack FILE` the
// packed record of a flat listing; the file `-` is standard input. A refusal puts its number on
// standard error and nothing on standard output, so that a number is never taken for bytes. What is
// refused, and what the bytes are, is the converters' to say. A read or a write that fails is said
// on standard error, and the exit status is 0 all the same; only where standard error fails too, or
// memory for what is said there, is it 1.
#![tactic(auto)]

ghost use Rattle.std.specs.Prelude.{◌≡◌, ◌≤◌, length, take, IfOk, IfSome};

use std::alloc::Global;
use std::env::Env;
use std::fs::File;
use std::io;
use std::io::Read;
use tokens::Refusal;

// What the first argument asks for.
#[derive(Clone, Copy)]
enum Task {
    List,
    Pack,
}

// An argument that does not fit is longer than each of the words.
// kept: `ask` has words of its own, so one function for both would take a table of them.
fn wanted(rt: &impl Env) -> Option<Task> {
    let mut word = [0u8; 16];
    let n = rt.arg(1, &mut word).ok()?;
    match &word[..n] {
        b"list" => Some(Task::List),
        b"pack" => Some(Task::Pack),
        _ => None,
    }
}

fn print_usage(rt: &impl Eprint) -> io::Result<()> {
    eprintln!(rt; "usage: token list FILE|- | token pack FILE|-")
}

// Writes what a converter put into a buffer, or the number of its refusal.
fn put(rt: &HostRuntime, made: Result<usize, Refusal>, out: &[u8]) -> io::Result<()>
    requires { IfOk made (λ n. n ≤ length out.now) }
{
    match made {
        Ok(n) => {
            files::told(rt, b"standard output", rt.write_all(&out[..n]))?;
            Ok(())
        }
        Err(refusal) => eprintln!(rt; "refused {}", refusal.number()),
    }
}

// Converts the bytes of a file. The room is that of the longest record, which is longer than the
// longest listing.
// kept: a buffer of a fixed size: a converter is lent one, and it cannot fail. It is compiled apart, so
// that no room is on the stack where nothing is converted.
#[inline(never)]
fn convert(rt: &HostRuntime, t: Task, file: &[u8]) -> io::Result<()> {
    let mut out = [0u8; 28021];
    match t {
        Task::List => {
            let made = tokens::to_listing(file, &mut out);
            put(rt, made, &out)
        }
        Task::Pack => {
            let made = tokens::to_record(file, &mut out);
            put(rt, made, &out)
        }
    }
}

// More than the longest record or listing has, so that a longer file is seen to be too long.
const LIMIT: u64 = 65537;

// The first bytes of an input, as many as the limit.
// kept: beside `read` and `read_named` of `ask`: a clause of each names its limit, which `files::read`
// leaves to its caller.
fn read<R: Read + Drop>(alloc: Global, input: R) -> io::Result<Vec<u8>>
    ensures { IfOk result (λ file. IfSome (R.remaining input)
        (λ bytes. file.items ≡ take 65537 bytes)) }
{
    files::read(alloc, input, LIMIT)
}

// The bytes of the file that has a name.
fn read_named(rt: &HostRuntime, name: &[u8]) -> io::Result<Vec<u8>> {
    read(rt.alloc(), File::open(rt, files::path(name)?)?)
}

// The bytes of the file that the second argument names; none where they could not be read, which is
// said. Compiled apart, so that its buffer is not on the stack beside the room of `convert`.
#[inline(never)]
fn given(rt: &HostRuntime) -> io::Result<Option<Vec<u8>>> {
    // kept: a buffer of a fixed size: it holds the longest name there is, and it cannot fail.
    let mut path = [0u8; 4096];
    let Some(n) = files::told(rt, b"token", files::name(rt, 2, &mut path))? else {
        return Ok(None);
    };
    match &path[..n] {
        b"-" => files::told(rt, b"standard input", read(rt.alloc(), rt.stdin())),
        name => files::told(rt, name, read_named(rt, name)),
    }
}

// The task of that file.
fn run(rt: &HostRuntime, t: Task) -> io::Result<()> {
    match given(rt)? {
        Some(bytes) => convert(rt, t, &bytes),
        None => Ok(()),
    }
}

fn main(rt: HostRuntime) -> io::Result<()> {
    if !files::is_given(rt.arg(2, &mut [])) || files::is_given(rt.arg(3, &mut [])) {
        return print_usage(&rt);
    }
    match wanted(&rt) {
        Some(t) => run(&rt, t),
        None => print_usage(&rt),
    }
}

// Converts, and writes what came of it.
ghost use Rattle.std.specs.Prelude.{◌≡◌, ◌++◌, ◌≤◌, ◌==◌, length, take, drop};
ghost use Rattle.std.proofs.lemmas.List.Edits.{sets};
ghost use Rattle.records.specs.Converters.{fitted};
ghost use Rattle.tokens.specs.Answers.{answered, converted_by};
ghost use Rattle.converts.specs.Buffers.{untouched};
ghost use Rattle.converts.specs.Forms.{made};

use std::io;
use testkit::print;
use tokens::Refusal;

// The two forms of a token.
// kept: `vectors` has its own: `testkit` knows no tokens, and what each is converted to differs.
#[derive(Clone, Copy)]
pub(crate) enum Form {
    Record,
    Listing,
}

// Whether each byte is the one that a buffer is filled with before it is lent.
fn is_untouched(s: &[u8]) -> bool
    ensures { result ≡ untouched s.now }
{
    s.iter().all(|b| *b == 170)
}

// Writes one answer: what stands in the whole buffer, of which a part was lent, and what is wanted
// there on success.
fn print_answer(
    rt: &impl Print,
    answer: Result<usize, Refusal>,
    buffer: &[u8],
    wanted: &[u8],
) -> io::Result<()> {
    // kept: the line that is printed has both, the status and the length.
    let (status, length) = match answer {
        Ok(length) => (0, length),
        Err(refusal) => (refusal.number(), 0),
    };
    print!(rt; " {status} {length}")?;
    let Some((bytes, rest)) = buffer.split_at_checked(length) else {
        return print!(rt; " TOO LONG");
    };
    print!(rt;
        "{}",
        if is_untouched(rest) {
            " kept"
        } else {
            " CHANGED"
        }
    )?;
    if status == 0 {
        print!(rt;
            "{}",
            if base::same(bytes, wanted) {
                " same"
            } else {
                " OTHER"
            }
        )?;
    }
    Ok(())
}

// A token of a form into the first `room` bytes of a buffer, in the other form.
fn convert_into(form: Form, token: &[u8], buffer: &mut [u8], room: usize) -> Result<usize, Refusal>
    requires { room ≤ length buffer.old }
    ensures value { converted_by result ≡ answered (fitted room (made form token.now)) }
    ensures buffer_after { buffer.new
        ≡ sets (take room buffer.old) 0
        (fitted room (made form token.now)).bytes
        ++ drop room buffer.old }
{
    let lent = &mut buffer[0..room];
    match form {
        Form::Record => tokens::to_listing(token, lent),
        Form::Listing => tokens::to_record(token, lent),
    }
}

// A token of a form into a buffer of `room` bytes, in the other form, and what is wanted there.
fn convert(rt: &impl Print, form: Form, token: &[u8], room: usize, wanted: &[u8]) -> io::Result<()>
    requires { room ≤ 28021 }
{
    let mut buffer = [170u8; 28021];
    let answer = convert_into(form, token, &mut buffer, room);
    print_answer(rt, answer, &buffer[0..28021], wanted)
}

// A token in its two forms: the listing into a buffer of `room` bytes, the record into `hold`.
pub(crate) fn pair_into(
    rt: &impl Print,
    name: &[u8],
    record: &[u8],
    listing: &[u8],
    room: usize,
    hold: usize,
) -> io::Result<()>
    requires { (room ≤ 22940) × (hold ≤ 28021) }
{
    print(rt, name)?;
    print!(rt; ":")?;
    convert(rt, Form::Record, record, room, listing)?;
    print!(rt; ",")?;
    convert(rt, Form::Listing, listing, hold, record)?;
    print!(rt; "\n")
}

// A token of a form that is refused.
pub(crate) fn refused(rt: &impl Print, form: Form, name: &[u8], token: &[u8]) -> io::Result<()> {
    let (word, room) = match form {
        Form::Record => ("record", 22940),
        Form::Listing => ("listing", 28021),
    };
    print!(rt; "{word} of {} bytes, ", token.len())?;
    print(rt, name)?;
    print!(rt; ":")?;
    convert(rt, form, token, room, b"")?;
    print!(rt; "\n")
}

// Cases of the two converters.
ghost use Rattle.std.specs.Prelude.{◌≤◌, IfSome};

use crate::text::ends_with_number;
use testkit::bytes_of;
use tokens::Refusal;

// The two forms of a token.
// kept: `converts` has its own: `testkit` knows no tokens, and what each is converted to differs.
#[derive(Clone, Copy)]
pub(crate) enum Form {
    Listing,
    Record,
}

impl Form {
    // How many bytes the longest has.
    fn most(self) -> usize
        ensures { result ≤ 28021 }
    {
        match self {
            Form::Listing => 22940,
            Form::Record => 28021,
        }
    }

    // Puts the bytes of a token, given in hexadecimal digits, into a buffer. They have to be of a
    // length that this form has.
    // kept: a buffer of a fixed size, a byte longer than the longest form, so that more is seen.
    fn bytes(self, hex: &[u8], out: &mut [u8; 28022]) -> Option<usize>
        ensures { IfSome result (λ n. n ≤ 28022) }
    {
        let room = self.most() + 1;
        bytes_of(hex, b'\n', &mut out[0..room])
    }

    // The other form of a token into this one.
    fn convert(self, from: &[u8], out: &mut [u8]) -> Result<usize, Refusal> {
        match self {
            Form::Listing => tokens::to_listing(from, out),
            Form::Record => tokens::to_record(from, out),
        }
    }

    // Whether a token in the other form converts to these bytes.
    fn is_made_of(self, from: &[u8], wanted: &[u8]) -> bool {
        let mut out = [0u8; 28021];
        let room = self.most();
        let Ok(n) = self.convert(from, &mut out[0..room]) else {
            return false;
        };
        match out.get(..n) {
            Some(bytes) => base::same(bytes, wanted),
            None => false,
        }
    }
}

// Whether each of two forms in hexadecimal digits converts to the other. Compiled apart, as `refused`
// is, so that their buffers are not on the stack together.
#[inline(never)]
pub(crate) fn both_ways(record_hex: &[u8], listing_hex: &[u8]) -> bool {
    let mut record = [0u8; 28022];
    let Some(n) = Form::Record.bytes(record_hex, &mut record) else {
        return false;
    };
    let mut listing = [0u8; 28022];
    let Some(m) = Form::Listing.bytes(listing_hex, &mut listing) else {
        return false;
    };
    Form::Listing.is_made_of(&record[0..n], &listing[0..m])
        && Form::Record.is_made_of(&listing[0..m], &record[0..n])
}

// Whether a token of a form, in hexadecimal digits, is not converted to another, and refused with
// the number that the line says.
#[inline(never)]
pub(crate) fn refused(form: Form, other: Form, hex: &[u8], line: &[u8]) -> bool {
    let mut bytes = [0u8; 28022];
    let Some(n) = form.bytes(hex, &mut bytes) else {
        return false;
    };
    let mut out = [0u8; 28021];
    let room = other.most();
    // kept: a status of its own: the line has the number alone, and no line has 0.
    let status = match other.convert(&bytes[0..n], &mut out[0..room]) {
        Ok(_) => 0,
        Err(refusal) => refusal.number(),
    };
    ends_with_number(line, 0, status)
}

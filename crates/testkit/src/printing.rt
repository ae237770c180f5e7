// Writing to standard output, which the runtime stands for. A function here fails where not all of
// it was written; what it writes no contract can say.
use std::io;

// Writes bytes as they are.
pub fn print(rt: &impl Print, text: &[u8]) -> io::Result<()> {
    rt.write_all(text)
}

// Writes a number in decimal digits.
pub fn print_number(rt: &impl Print, n: u64) -> io::Result<()> {
    print!(rt; "{n}")
}

// Writes a number in so many hexadecimal digits, at most 16, or in more where it needs them.
pub fn print_hex(rt: &impl Print, n: u64, width: usize) -> io::Result<()> {
    let width = width.min(16);
    print!(rt; "{n:0width$x}")
}

// Writes bytes in hexadecimal digits, two each.
pub fn print_bytes(rt: &impl Print, s: &[u8]) -> io::Result<()> {
    for b in s {
        print_hex(rt, u64::from(*b), 2)?;
    }
    Ok(())
}

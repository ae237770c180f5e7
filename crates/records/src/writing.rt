// Numbers written into a lent buffer, and the head of a SID.
ghost use Rattle.std.specs.Prelude.{◌≡◌, ◌∷◌, ◌+◌, ◌≤◌, ◌<◌, length};
ghost use Rattle.std.proofs.lemmas.List.Edits.{sets};
ghost use Rattle.base.specs.Bytes.{little, big};

// Writes the n lowest bytes of a number from place `o`, lowest first.
pub(crate) fn put_little(out: &mut [u8], o: usize, n: usize, v: u64)
    requires { (o + n ≤ length out.old) × (n ≤ 8) }
    ensures { out.new ≡ sets out.old o (little n v) }
{
    out[o..o + n].copy_from_slice(&v.to_le_bytes()[..n]);
}

// Writes the six lowest bytes of a number from place `o`, highest first.
fn put_big(out: &mut [u8], o: usize, v: u64)
    requires { o + 6 ≤ length out.old }
    ensures { out.new ≡ sets out.old o (big 6 v) }
{
    out[o..o + 6].copy_from_slice(&v.to_be_bytes()[2..]);
}

// Writes the head of a SID from place `o`: the byte 1, its count and its authority. An authority of
// one byte is written in one go with the rest.
pub(crate) fn put_head(out: &mut [u8], o: usize, n: u64, v: u64)
    requires { (o + 8 ≤ length out.old) × (n < 256) }
    ensures { out.new ≡ sets out.old o (1 ∷ n ∷ big 6 v) }
{
    if v < 256 {
        put_little(out, o, 8, 1 + 256 * n + 72057594037927936 * v);
        return;
    }
    out[o] = 1;
    out[o + 1] = n as u8;
    put_big(out, o + 2, v);
}

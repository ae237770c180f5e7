// Bytes that more than one program starts from.
ghost use Rattle.std.specs.Prelude.{◌≡◌};
ghost use Rattle.testkit.specs.Sample.{descriptor_d};

// "Descriptor D (64 bytes)": owner S-1-5-7 at 20, DACL at 32 with one entry at 40.
pub fn descriptor() -> [u8; 64]
    ensures { result ≡ descriptor_d }
{
    *b"\x01\0\x04\x80\x14\0\0\0\0\0\0\0\0\0\0\0\x20\0\0\0\
    \x01\x01\0\0\0\0\0\x05\x07\0\0\0\
    \x02\0\x20\0\x01\0\0\0\
    \0\0\x18\0\0\0\0\x80\x01\x02\0\0\0\0\0\x05\0\0\0\0\x07\0\0\0"
}

// Document 01, "Script and printout": numbers in a file, "Little-endian". Each width has a function: it is
// one line, the library's `from_le_bytes`, which belongs to no trait, so that no generic one is plainer.
ghost use Rattle.std.specs.Prelude.{◌≡◌, ◌+◌, ◌≤◌, length};
ghost use Rattle.reader.specs.Numbers.{number_at};

pub(crate) fn u16_at(s: &[u8], at: usize) -> u16
    requires { at + 2 ≤ length s.now }
    ensures { result ≡ number_at s.now at 2 }
{
    u16::from_le_bytes(s[at..at + 2].try_into().unwrap())
}

pub(crate) fn u32_at(s: &[u8], at: usize) -> u32
    requires { at + 4 ≤ length s.now }
    ensures { result ≡ number_at s.now at 4 }
{
    u32::from_le_bytes(s[at..at + 4].try_into().unwrap())
}

pub(crate) fn u64_at(s: &[u8], at: usize) -> u64
    requires { at + 8 ≤ length s.now }
    ensures { result ≡ number_at s.now at 8 }
{
    u64::from_le_bytes(s[at..at + 8].try_into().unwrap())
}

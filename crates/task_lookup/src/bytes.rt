// Strings of bytes.
ghost use Rattle.std.specs.Prelude.{◌≡◌, get_or, eqb};
ghost use Rattle.fra.specs.Lists.{any, below};

// The byte at a place, 0 past the end.
pub fn at(s: &[u8], i: usize) -> u8
    ensures { result ≡ get_or s.now i 0 }
{
    s.get(i).copied().unwrap_or(0)
}

// The strict lexicographic order of two strings.
pub fn below(a: &[u8], b: &[u8]) -> bool
    ensures { result ≡ below a.now b.now }
{
    a < b
}

// The byte stands in the string.
pub fn contains(s: &[u8], byte: u8) -> bool
    ensures { result ≡ any (eqb byte) s.now }
{
    s.contains(&byte)
}

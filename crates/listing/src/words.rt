// Words of four bytes, high byte first, in lent bytes.
ghost use Rattle.std.specs.Prelude.{◌+◌, ◌≤◌, ◌≡◌, length};
ghost use Rattle.outcome.specs.Bytes.{word_at};
ghost use Rattle.listing.specs.Widths.{word_width};
ghost use Rattle.listing.specs.Words.{put_word};

use outcome::layout;

// The word from a place on.
pub fn word_at(list: &[u8], at: usize) -> u32
    requires { at + word_width ≤ length list.now }
    ensures { result ≡ word_at list.now at }
{
    u32::from_be_bytes([list[at], list[at + 1], list[at + 2], list[at + 3]])
}

// Writes a word from a place on.
pub fn put_word(list: &mut [u8], at: usize, v: u32)
    requires { at + word_width ≤ length list.old }
    ensures { list.new ≡ put_word list.old at v }
{
    list[at..at + layout::WORD].copy_from_slice(&v.to_be_bytes());
}

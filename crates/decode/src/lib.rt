// Words out of bytes, the lowest byte of a word first.
#![tactic(auto)]

ghost use Rattle.std.specs.Prelude.{◌≡◌, ◌/◌, ◌≤◌, length};
ghost use Rattle.decode.specs.Decode.{decoded};

// Puts the words of `bytes` at the start of `words`, and answers how many there are: with no heap the
// caller's buffer is lent, and a count beside it.
pub fn decode(bytes: &[u8], words: &mut [u32]) -> usize
    requires { length bytes.now / 4 ≤ length words.old }
    ensures value { result ≡ length bytes.now / 4 }
    ensures new_words { words.new ≡ decoded bytes.now words.old }
{
    let (chunks, _) = bytes.as_chunks::<4>();
    for (i, &chunk) in chunks.iter().enumerate() {
        words[i] = u32::from_le_bytes(chunk);
    }
    chunks.len()
}

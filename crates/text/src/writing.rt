// Writes bytes and texts into a lent buffer.
ghost use Rattle.std.specs.Prelude.{[], ◌∷◌, ◌≡◌, ◌+◌, leb};
ghost use Rattle.text.specs.Writing.{place_past, buffer_with};

// Whether a buffer of `len` bytes has room for that many bytes at a place. It subtracts, since a sum could overflow.
pub fn has_room(len: usize, at: usize, bytes: usize) -> bool
    ensures { result ≡ leb (at + bytes) len }
{
    bytes <= len && at <= len - bytes
}

#[tactic(auto, using(crate::proofs::WritingLaws::room_tests))]
pub fn put_byte(out: &mut [u8], at: usize, byte: u8) -> usize
    ensures value { result ≡ place_past (byte ∷ []) at out.old }
    ensures out_after { out.new ≡ buffer_with (byte ∷ []) at out.old }
{
    if !has_room(out.len(), at, 1) {
        return at;
    }
    out[at] = byte;
    at + 1
}

#[tactic(auto, using(crate::proofs::WritingLaws::room_tests))]
pub fn put_text(out: &mut [u8], at: usize, text: &[u8]) -> usize
    ensures value { result ≡ place_past text.now at out.old }
    ensures out_after { out.new ≡ buffer_with text.now at out.old }
{
    if !has_room(out.len(), at, text.len()) {
        return at;
    }
    let end = at + text.len();
    out[at..end].copy_from_slice(text);
    end
}

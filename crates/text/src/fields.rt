// Finds the fields of a text. A mark stands between each two, so two marks side by side have an empty field between them. A field that isn't there
// reads as an empty one.
ghost use Rattle.std.specs.Prelude.{◌≡◌, ◌+◌, take, drop};
ghost use Rattle.text.specs.Fields.{count_at, field_at, bytes_before};

// The place of the first mark from `from` on. If there is none, it is the length of the text, or `from` if that is more.
pub fn find(text: &[u8], mark: u8, from: usize) -> usize
    ensures { result ≡ from + bytes_before mark (drop from text.now) }
{
    let rest = &text[from.min(text.len())..];
    let bytes = rest.iter().position(|byte| *byte == mark);
    from + bytes.unwrap_or(rest.len())
}

// The first `count` bytes of the text, or all of it if it is shorter.
pub fn first(text: &[u8], count: usize) -> &[u8]
    ensures { result.now ≡ take count text.now }
{
    &text[..count.min(text.len())]
}

// An empty text has one field too. The loop takes less time than `filter` with `count` (docs/LOOK-BACK.md).
pub fn count(text: &[u8], mark: u8) -> usize
    ensures { result ≡ count_at mark text.now }
{
    let mut fields = 1;
    for &byte in text {
        if byte == mark {
            fields += 1;
        }
    }
    fields
}

// Field n, counted from 0.
pub fn field(text: &[u8], mark: u8, n: u8) -> &[u8]
    ensures { result.now ≡ field_at mark n text.now }
{
    text.split(|byte| *byte == mark)
        .nth(n as usize)
        .unwrap_or(&[])
}

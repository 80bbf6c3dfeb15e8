// Tells whether a field is a word, and which word of a list it is.
ghost use Rattle.std.specs.Prelude.{◌≡◌};
ghost use Rattle.text.specs.Words.{same_text, words_of, place_among};

use crate::fields;

// Whether the field is the word. It stands although it is only `==`: `ReadBack` speaks of what it promises.
pub fn is(field: &[u8], word: &[u8]) -> bool
    ensures { result ≡ same_text field.now word.now }
{
    field == word
}

// The place of the field among the words, counted from 0. If it is none of them, the answer is the number of words. A space stands between each two.
// It is no `split`, since an empty text has no word.
pub fn place(field: &[u8], words: &[u8]) -> usize
    ensures { result ≡ place_among field.now (words_of words.now) }
{
    let mut n = 0;
    let mut from = 0;
    while from < words.len() {
        let end = fields::find(words, b' ', from);
        if is(field, &words[from..end]) {
            return n;
        }
        n += 1;
        from = end + 1;
    }
    n
}

// The words of a text, one after another.

ghost use Rattle.std.specs.Prelude.{◌≡◌, ◌<◌, ◌≤◌, false, [], length, drop, not, slice_index, IfNone, IfSome};
ghost use Rattle.std.specs.Iterator.{YieldsFirstBy, item_count};
ghost use Rattle.std.specs.List.{prefix_len};
ghost use Rattle.text.specs.Words.{between, scan, separator, words_of};

use std::marker::Model;

// Where a word begins, and its bytes.
#[derive(Clone, Copy)]
pub(crate) struct Word<'a> {
    pub(crate) start: usize,
    pub(crate) bytes: &'a [u8],
}

// The words from a place between words on.
#[derive(Drop)]
pub(crate) struct Words<'a> {
    text: &'a [u8],
    place: usize,
}

impl<'a> Model for Words<'a> {
    ghost use Rattle.std.specs.Prelude.{◌≤◌, List, length, drop};
    ghost use Rattle.text.specs.Words.{Word, between, scan};

    ghost Value = { List Word };

    ghost view = { λ w. scan between w.place (drop w.place w.text.now) };

    ghost invariant = { λ w. w.place ≤ length w.text.now };
}

impl<'a> Words<'a> {
    pub(crate) fn of(text: &'a [u8]) -> Words<'a>
        ensures { result ≡ words_of text.now }
    {
        Words { text, place: 0 }
    }
}

impl<'a> Iterator for Words<'a> {
    type Item = Word<'a>;

    ghost next_gives = { YieldsFirstBy (λ w. record { start = w.start; bytes = w.bytes.now }) (λ left. left) };

    ghost remaining = { item_count (λ left. left) };

    fn next(&mut self) -> Option<Word<'a>> {
        let start = next_word(self.text, self.place)?;
        let rest = &self.text[start..];
        let bytes = &rest[..word_len(rest)];
        self.place = start + bytes.len();
        Some(Word { start, bytes })
    }
}

// White space, or the beginning of a comment.
fn is_separator(byte: u8) -> bool
    ensures { result ≡ separator byte }
{
    matches!(byte, b' ' | b'\t'..=b'\r' | b'#')
}

// Where the next word begins, from a place between words.
fn next_word(text: &[u8], from: usize) -> Option<usize>
    requires { from ≤ length text.now }
    ensures none { IfNone result (scan between from (drop from text.now) ≡ []) }
    ensures within { IfSome result (λ at. at < length text.now) }
    ensures words { IfSome result (λ at. scan between from (drop from text.now) ≡ scan between at (drop at text.now)) }
    ensures begins { IfSome result (λ at. separator (slice_index text.now at) ≡ false) }
{
    let mut comment = false;
    // by place, as a place is what is sought
    for at in from..text.len() {
        let byte = text[at];
        if comment {
            comment = byte != b'\n';
        } else if is_separator(byte) {
            comment = byte == b'#';
        } else {
            return Some(at);
        }
    }
    None
}

// How many bytes stand before the first separator.
fn word_len(rest: &[u8]) -> usize
    ensures { result ≡ prefix_len (λ byte. not (separator byte)) rest.now }
{
    rest.iter().take_while(|byte| !is_separator(**byte)).count()
}

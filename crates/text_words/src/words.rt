// A line's words.
ghost use Rattle.std.specs.Prelude.{◌≡◌};
ghost use Rattle.text_words.specs.Words.{without_return, first_word, behind, word};
ghost use Rattle.text_words.specs.Words as Words;

use crate::seek::{is_blank, split};

// The line without a CR at its end.
fn without_return(line: &[u8]) -> &[u8]
    ensures { result.now ≡ without_return line.now }
{
    line.strip_suffix(b"\r").unwrap_or(line)
}

// What a line says: all before its CR and its comment.
pub fn said(line: &[u8]) -> &[u8]
    ensures { result.now ≡ Words.said line.now }
{
    split(without_return(line), |b| b == b'#').0
}

// The first word of a text, and what stands behind it.
fn first_word(text: &[u8]) -> (&[u8], &[u8])
    ensures front { result.0.now ≡ first_word text.now }
    ensures back { result.1.now ≡ behind text.now }
{
    let (_, text) = split(text, |b| !is_blank(b));
    split(text, is_blank)
}

// Word n, counted from 0; a word that is missing is empty.
pub fn nth_word(text: &[u8], n: usize) -> &[u8]
    ensures { result.now ≡ word n text.now }
{
    let mut rest = text;
    for _ in 0..n {
        (_, rest) = first_word(rest);
    }
    first_word(rest).0
}

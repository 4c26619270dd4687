// The pieces of a case's line: words and numbers, printed as they come. Assumes nothing.
use std::io;

pub fn words(rt: &impl Print, text: &[u8]) -> io::Result<()> {
    rt.write_all(text)
}

// A number after words.
pub fn number(rt: &impl Print, text: &[u8], n: usize) -> io::Result<()> {
    words(rt, text)?;
    rt.print(n)
}

// How many of what are tried, then the refusal and the place of the answer word.
pub fn tried(rt: &impl Print, n: usize, what: &[u8], word: u64) -> io::Result<()> {
    number(rt, b"", n)?;
    words(rt, what)?;
    number(rt, b": ", wire::refusal_in(word))?;
    number(rt, b" ", wire::place_in(word))
}

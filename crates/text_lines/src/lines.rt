//! The lines of bytes that say something.
ghost use Rattle.std.specs.Prelude.{◌≡◌, ℕ, ◌+◌, ◌-◌, ◌*◌, ◌≤◌, ◌<◌, length};
ghost use Rattle.std.specs.Iterator.{YieldsFirstBy, item_count};
ghost use Rattle.text_lines.specs.Lines.{lines_from, lines_of, split, trimmed, with_line};

use crate::line::{cut, trimmed};
use std::marker::Model;

/// A line that says something.
#[derive(Clone, Copy)]
pub struct Line<'a> {
    /// Its first byte, counted from 0.
    pub at: usize,
    /// What is in it between its blanks.
    pub text: &'a [u8],
}

/// The lines that say something, seen as those that are left, each as its first byte and what is in it between its
/// blanks. The last line feed may be missing.
#[derive(Drop)]
pub struct Lines<'a> {
    at: usize,
    rest: &'a [u8],
}

impl<'a> Model for Lines<'a> {
    ghost use Rattle.std.specs.Prelude.{ℕ, List, ◌+◌, ◌<◌, ◌^◌, length};
    ghost use Rattle.text_lines.specs.Lines.{lines_from, split};

    ghost Value = { List (ℕ × List ℕ) };

    ghost view = { λ it. lines_from it.at (split 10 it.rest.now) };

    ghost invariant = { λ it. it.at + length it.rest.now < 2 ^ 64 };
}

impl<'a> Lines<'a> {
    /// All lines of the bytes.
    pub fn new(bytes: &'a [u8]) -> Lines<'a>
        ensures lines { result ≡ lines_of bytes.now }
        ensures few { 2 * length result ≤ length bytes.now + 1 }
    {
        Lines { at: 0, rest: bytes }
    }
}

impl<'a> Iterator for Lines<'a> {
    type Item = Line<'a>;

    ghost next_gives = { YieldsFirstBy (λ line. (line.at, line.text.now)) (λ left. left) };

    ghost remaining = { item_count (λ left. left) };

    fn next(&mut self) -> Option<Line<'a>> {
        while !self.rest.is_empty() {
            let at = self.at;
            let (piece, rest) = first_line(self.rest);
            self.at += self.rest.len() - rest.len();
            self.rest = rest;
            let text = trimmed(piece);
            if !text.is_empty() {
                return Some(Line { at, text });
            }
        }
        None
    }
}

// The first line of the bytes, and what comes after its line feed: nothing if there is none.
fn first_line(bytes: &[u8]) -> (&[u8], &[u8])
    requires { 0 < length bytes.now }
    ensures lines { (at : ℕ) → lines_from at (split 10 bytes.now)
        ≡ with_line at (trimmed result.0.now) (lines_from (at + (length bytes.now - length result.1.now)) (split 10 result.1.now)) }
    ensures shorter { length result.1.now < length bytes.now }
{
    match cut(bytes, b'\n') {
        Some((line, rest)) => (line, rest),
        None => (bytes, &[]),
    }
}

//! The words of a goal's text.

ghost use Rattle.std.specs.Prelude.{◌≡◌, IfOk};
ghost use Rattle.tas_engines.specs.Names.{names_of};
ghost use Rattle.tas_search.specs.Words.{operator_words, sign_words, row_of, number_of, place_of, placed, word_of, words_in};

use crate::expression::Operator;
use crate::word::Word;
use byte_text::{read_decimal, split_once};
use std::alloc::{AllocError, Allocator};
use tas_engines::{Name, address_of, named};

/// The operator that these bytes are.
fn operator_word(bytes: &[u8]) -> Option<Word>
    ensures { result ≡ row_of operator_words bytes.now }
{
    if bytes == b"or".as_slice() {
        return Some(Word::Operator(Operator::Or));
    }
    if bytes == b"and".as_slice() {
        return Some(Word::Operator(Operator::And));
    }
    if bytes == b"==".as_slice() {
        return Some(Word::Operator(Operator::Equal));
    }
    if bytes == b"!=".as_slice() {
        return Some(Word::Operator(Operator::Unequal));
    }
    if bytes == b"<".as_slice() {
        return Some(Word::Operator(Operator::Less));
    }
    if bytes == b"<=".as_slice() {
        return Some(Word::Operator(Operator::AtMost));
    }
    if bytes == b">".as_slice() {
        return Some(Word::Operator(Operator::Greater));
    }
    if bytes == b">=".as_slice() {
        return Some(Word::Operator(Operator::AtLeast));
    }
    if bytes == b"+".as_slice() {
        return Some(Word::Operator(Operator::Plus));
    }
    if bytes == b"-".as_slice() {
        return Some(Word::Operator(Operator::Minus));
    }
    if bytes == b"*".as_slice() {
        return Some(Word::Operator(Operator::Times));
    }
    None
}

/// The parenthesis or the `not` that these bytes are.
fn sign_word(bytes: &[u8]) -> Option<Word>
    ensures { result ≡ row_of sign_words bytes.now }
{
    if bytes == b"(".as_slice() {
        return Some(Word::Open);
    }
    if bytes == b")".as_slice() {
        return Some(Word::Close);
    }
    if bytes == b"not".as_slice() {
        return Some(Word::Not);
    }
    None
}

/// The number that these decimal digits write.
fn number_of(bytes: &[u8]) -> Option<u32>
    ensures { result ≡ number_of bytes.now }
{
    let n = read_decimal(bytes)?;
    if n > 4_294_967_295 {
        return None;
    }
    Some(n as u32)
}

/// The address that is written, or that has a name.
fn place_of<A: Allocator>(names: &[Name<A>], bytes: &[u8]) -> Option<u8>
    ensures { result ≡ place_of (names_of names.now) bytes.now }
{
    match address_of(bytes) {
        Some(address) => Some(address),
        None => named(names, bytes),
    }
}

/// The same of what stands after the beginning of a word, where it begins so.
fn placed<A: Allocator>(names: &[Name<A>], begin: &[u8], bytes: &[u8]) -> Option<u8>
    ensures { result ≡ placed (names_of names.now) begin.now bytes.now }
{
    match bytes.strip_prefix(begin) {
        Some(rest) => place_of(names, rest),
        None => None,
    }
}

/// The word of an expression that these bytes are, with these names.
pub(crate) fn word_of<A: Allocator>(names: &[Name<A>], bytes: &[u8]) -> Word
    ensures { result ≡ word_of (names_of names.now) bytes.now }
{
    if let Some(word) = sign_word(bytes) {
        return word;
    }
    if let Some(word) = operator_word(bytes) {
        return word;
    }
    if let Some(n) = number_of(bytes) {
        return Word::Number(n);
    }
    if let Some(at) = placed(names, b"byte:", bytes) {
        return Word::Byte(at);
    }
    if let Some(at) = placed(names, b"bcd:", bytes) {
        return Word::Bcd(at);
    }
    if let Some(at) = placed(names, b"pair:", bytes) {
        return Word::Pair(at);
    }
    match named(names, bytes) {
        Some(at) => Word::Byte(at),
        None => Word::Other,
    }
}

/// The words of a text, with these names: what stands between its spaces.
pub(crate) fn words_in<A: Allocator, B: Allocator>(
    alloc: A,
    names: &[Name<B>],
    text: &[u8],
) -> Result<Vec<Word, A>, AllocError>
    ensures { IfOk result (λ words. words.items ≡ words_in (names_of names.now) text.now) }
{
    let mut words = Vec::new(alloc);
    let mut rest = text;
    while let Some((first, after)) = split_once(rest, b' ') {
        words.push(word_of(names, first))?;
        rest = after;
    }
    words.push(word_of(names, rest))?;
    Ok(words)
}

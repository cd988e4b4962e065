// Words and signs of a routine's text, and lines and columns of its places.
#![tactic(auto)]

ghost use Rattle.std.specs.Prelude.{◌≡◌, false, ◌+◌, ◌*◌, ◌-◌, ◌≤◌, ◌<◌, length, drop, MatchOption};
ghost use Rattle.text.specs.Text.{is_digit};
ghost use Rattle.routine_tokens.specs.Tokens.{is_blank, is_letter, is_word_byte, word_length, opens_comment, separates, in_comment, separators};
ghost use Rattle.routine_tokens.specs.Tokens.{fits, row_of, row_length, digit_kind, word_kind, word_of, sign_of, token_at, token_from};
ghost use Rattle.routine_tokens.specs.Tokens.{line_behind, column_behind, line_from, line_of, column_of};

// A token: its kind, the place of its first byte and the one behind its last. The kind is a number: the grammar of 03 is stated over numbers
// of kinds (`grammar` and `predictions` of routine_text), and the claims of routine_reader speak of these.
#[derive(Clone, Copy, PartialEq, Eq)]
pub struct Token {
    pub kind: usize,
    pub start: usize,
    pub end: usize,
}

fn is_blank(b: u8) -> bool
    ensures { result ≡ is_blank b }
{
    (b == b' ') | (b == b'\t') | (b == b'\r') | (b == b'\n')
}

fn is_letter(b: u8) -> bool
    ensures { result ≡ is_letter b }
{
    b.is_ascii_alphabetic() | (b == b'_')
}

fn is_digit(b: u8) -> bool
    ensures { result ≡ is_digit b }
{
    b.is_ascii_digit()
}

fn is_word_byte(b: u8) -> bool
    ensures { result ≡ is_word_byte b }
{
    is_letter(b) | is_digit(b)
}

// The place behind the bytes of a word. Places are counted from the text's start, so the functions below take the text and a place, not what
// is left of the text.
fn past_word(text: &[u8], at: usize) -> usize
    requires { at ≤ length text.now }
    ensures { (result ≡ at + word_length (drop at text.now)) × (result ≤ length text.now) }
{
    for i in at..text.len() {
        if !is_word_byte(text[i]) {
            return i;
        }
    }
    text.len()
}

fn opens_comment(text: &[u8], at: usize) -> bool
    requires { at < length text.now }
    ensures { result ≡ opens_comment (drop at text.now) }
{
    let next = at + 1;
    if text.len() <= next {
        return false;
    }
    (text[at] == 47) & (text[next] == 47)
}

// The byte at a place separates, outside a comment or within one.
fn separates(text: &[u8], at: usize, comment: bool) -> bool
    requires { at < length text.now }
    ensures { result ≡ separates comment (drop at text.now) }
{
    if comment {
        return text[at] <= 127;
    }
    is_blank(text[at]) | opens_comment(text, at)
}

// There is a comment behind a byte that separates.
fn in_comment(comment: bool, b: u8) -> bool
    ensures { result ≡ in_comment comment b }
{
    if comment {
        return b != 10;
    }
    b == 47
}

// The place behind the separators.
fn past_separators(text: &[u8], at: usize) -> usize
    ensures { result ≡ at + separators false (drop at text.now) }
{
    let mut comment = false;
    for i in at..text.len() {
        if !separates(text, i, comment) {
            return i;
        }
        comment = in_comment(comment, text[i]);
    }
    usize::max(at, text.len())
}

// The row in front is what the bytes begin with, or all of them.
fn fits(bytes: &[u8], row: &[u8], whole: bool) -> bool
    ensures { result ≡ fits whole bytes.now row.now }
{
    for (i, r) in row.iter().enumerate() {
        if bytes.len() <= i {
            return *r == 32;
        }
        if *r == 32 {
            return !whole;
        }
        if bytes[i] != *r {
            return false;
        }
    }
    false
}

// The first of so many rows that fits. The rows are ten bytes each, as `word_table` and `sign_table` of specs/ have them.
fn row_of(bytes: &[u8], table: &[u8], count: usize, whole: bool) -> Option<usize>
    requires { 10 * count ≤ length table.now }
    ensures { MatchOption result (count ≡ row_of count whole bytes.now table.now) (λ row. (row < count) × (row ≡ row_of count whole bytes.now table.now)) }
{
    for k in 0..count {
        let from = 10 * k;
        if fits(bytes, &table[from..], whole) {
            return Some(k);
        }
    }
    None
}

// The bytes of the row in front.
fn row_length(row: &[u8]) -> usize
    ensures { result ≡ row_length row.now }
{
    for (i, r) in row.iter().enumerate() {
        if *r == 32 {
            return i;
        }
    }
    row.len()
}

// A word that a digit begins.
fn digit_kind(word: &[u8]) -> usize
    requires { 0 < length word.now }
    ensures { result ≡ digit_kind word.now }
{
    if 1 < word.len() {
        return 5;
    }
    if word[0] == 48 {
        return 3;
    }
    if word[0] == 49 {
        return 4;
    }
    5
}

fn word_kind(word: &[u8]) -> usize
    requires { 0 < length word.now }
    ensures { result ≡ word_kind word.now }
{
    if is_digit(word[0]) {
        return digit_kind(word);
    }
    let Some(row) = row_of(
        word,
        b"links     flags     routine   requires  ensures   var       havoc     assume    assert    cover     \
if        else      while     invariant return    break     true      false     forall    reaches   by        between   NULL      ",
        23,
        true,
    ) else {
        return 2;
    };
    6 + row
}

fn word_at(text: &[u8], at: usize) -> Token
    requires { (at < length text.now) × (0 < word_length (drop at text.now)) }
    ensures { result ≡ word_of at (word_length (drop at text.now)) (drop at text.now) }
{
    let end = past_word(text, at);
    let kind = word_kind(&text[at..end]);
    Token {
        kind,
        start: at,
        end,
    }
}

fn sign_in(text: &[u8], at: usize, table: &[u8]) -> Token
    requires { (at < length text.now) × (160 ≤ length table.now) }
    ensures { result ≡ sign_of at (row_of 16 false (drop at text.now) table.now) table.now }
{
    let Some(row) = row_of(&text[at..], table, 16, false) else {
        return Token {
            kind: 1,
            start: at,
            end: at + 1,
        };
    };
    let from = 10 * row;
    Token {
        kind: 29 + row,
        start: at,
        end: at + row_length(&table[from..]),
    }
}

fn token_at(text: &[u8], at: usize) -> Token
    ensures { result ≡ token_at at (drop at text.now) }
{
    if text.len() <= at {
        return Token {
            kind: 0,
            start: at,
            end: at,
        };
    }
    if is_word_byte(text[at]) {
        return word_at(text, at);
    }
    sign_in(
        text,
        at,
        b"->        =>        <=>       ==        !=        &&        ||        (         )         {         }         ;         :         ,         =         !         ",
    )
}

// The token behind a place and its separators.
pub fn next_token(text: &[u8], at: usize) -> Token
    ensures { result ≡ token_from text.now at }
{
    token_at(text, past_separators(text, at))
}

// The line and the column behind a byte.
fn line_behind(line: usize, b: u8) -> usize
    requires { line < 18446744073709551615 }
    ensures { (result ≡ line_behind line b) × (result ≤ line + 1) }
{
    if b == 10 {
        return line + 1;
    }
    line
}

fn column_behind(column: usize, b: u8) -> usize
    requires { column < 18446744073709551615 }
    ensures { (result ≡ column_behind column b) × (result ≤ column + 1) }
{
    if b == 10 {
        return 1;
    }
    column + 1
}

// The line of a place `to`, where that of `from` is known.
pub fn line_from(text: &[u8], from: usize, to: usize, line: usize) -> usize
    requires { (from ≤ to) × (to ≤ length text.now) × (line ≤ from + 1) }
    ensures { (result ≡ line_from line (to - from) (drop from text.now)) × (result ≤ to + 1) }
{
    let mut l = line;
    for i in from..to {
        l = line_behind(l, text[i]);
    }
    l
}

pub fn line_of(text: &[u8], place: usize) -> usize
    requires { place ≤ length text.now }
    ensures { (result ≡ line_of text.now place) × (result ≤ place + 1) }
{
    line_from(text, 0, place, 1)
}

pub fn column_of(text: &[u8], place: usize) -> usize
    requires { place ≤ length text.now }
    ensures { (result ≡ column_of text.now place) × (result ≤ place + 1) }
{
    let mut column: usize = 1;
    for i in 0..place {
        column = column_behind(column, text[i]);
    }
    column
}

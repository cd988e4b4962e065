// The lines that programs print of a text, made in a lent buffer.
#![tactic(auto)]

ghost use Rattle.std.specs.Prelude.{◌+◌, ◌≤◌};
ghost use Rattle.text.specs.Text.{Writes};
ghost use Rattle.routine_lines.specs.Words.{word_of};
ghost use Rattle.routine_lines.specs.Lines.{fault_word, place_text, fault_text};

// The word of a fault.
#[derive(Clone, Copy, PartialEq, Eq)]
pub enum FaultWord {
    Text,
    Name,
    Forall,
    Limit,
}

fn put_word(buffer: &mut [u8], at: usize, word: FaultWord) -> usize
    requires { at ≤ 2000 }
    ensures { Writes buffer.old at (fault_word (word_of word)) buffer.new result × (result ≤ at + 6) }
{
    match word {
        FaultWord::Text => text::put_bytes(buffer, at, b"text"),
        FaultWord::Name => text::put_bytes(buffer, at, b"name"),
        FaultWord::Forall => text::put_bytes(buffer, at, b"forall"),
        FaultWord::Limit => text::put_bytes(buffer, at, b"limit"),
    }
}

// A line and a column, counted from 1.
fn put_place(buffer: &mut [u8], at: usize, line: usize, column: usize) -> usize
    requires { at ≤ 2000 }
    ensures { Writes buffer.old at (place_text line column) buffer.new result × (result ≤ at + 41) }
{
    let mut to = text::put_decimal(buffer, at, line);
    to = text::put_byte(buffer, to, b':');
    text::put_decimal(buffer, to, column)
}

// "one line, `fault L:C WORD`"
pub fn put_fault(buffer: &mut [u8], at: usize, line: usize, column: usize, word: FaultWord) -> usize
    requires { at ≤ 1000 }
    ensures { Writes buffer.old at (fault_text line column (word_of word)) buffer.new result × (result ≤ at + 60) }
{
    let mut to = text::put_bytes(buffer, at, b"fault ");
    to = put_place(buffer, to, line, column);
    to = text::put_byte(buffer, to, b' ');
    to = put_word(buffer, to, word);
    text::put_byte(buffer, to, b'\n')
}

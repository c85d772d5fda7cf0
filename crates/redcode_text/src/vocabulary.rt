//! The vocabulary: the reserved words, and the names of modifiers and modes, each as a source may write it and as load text spells it.
//! In what a source writes upper and lower case are one.

ghost use Rattle.std.specs.Prelude.{◌≡◌, drop};
ghost use Rattle.redcode_text.specs.Vocabulary.{is_word, word_of, named, reserved_words, other_words, modifier_names, mode_names, op_text, modifier_text, mode_text};

use war_types::{Mode, Modifier, Op};

/// A reserved word.
#[derive(Clone, Copy)]
pub enum Word {
    /// An operation of the machine.
    Operation(Op),
    /// `LDP` or `STP`: each stands for an instruction that no machine here has.
    Pspace,
    Equ,
    For,
    Rof,
    Org,
    End,
    Pin,
}

/// Letters of a reserved word.
const LETTERS: usize = 3;

/// Whether the text is the word, upper and lower case being one.
pub fn is_word(word: &[u8], text: &[u8]) -> bool
    ensures { result ≡ is_word word.now text.now }
{
    text.eq_ignore_ascii_case(word)
}

/// The reserved word that a name is. All have three letters.
#[tactic(auto, using(crate::proofs::Words::no_word))]
pub fn word_of(text: &[u8]) -> Option<Word>
    ensures { result ≡ word_of text.now }
{
    match text {
        _ if text.len() != LETTERS => None,
        _ if is_word(b"DAT", text) => Some(Word::Operation(Op::Dat)),
        _ if is_word(b"MOV", text) => Some(Word::Operation(Op::Mov)),
        _ if is_word(b"ADD", text) => Some(Word::Operation(Op::Add)),
        _ if is_word(b"SUB", text) => Some(Word::Operation(Op::Sub)),
        _ if is_word(b"MUL", text) => Some(Word::Operation(Op::Mul)),
        _ if is_word(b"DIV", text) => Some(Word::Operation(Op::Div)),
        _ if is_word(b"MOD", text) => Some(Word::Operation(Op::Mdl)),
        _ => jump_or_comparison(text),
    }
}

/// The reserved word that a name is, if the word is none of the first seven.
fn jump_or_comparison(text: &[u8]) -> Option<Word>
    ensures { result ≡ named (drop 7 reserved_words) text.now }
{
    match text {
        _ if is_word(b"JMP", text) => Some(Word::Operation(Op::Jmp)),
        _ if is_word(b"JMZ", text) => Some(Word::Operation(Op::Jmz)),
        _ if is_word(b"JMN", text) => Some(Word::Operation(Op::Jmn)),
        _ if is_word(b"DJN", text) => Some(Word::Operation(Op::Djn)),
        _ if is_word(b"CMP", text) => Some(Word::Operation(Op::Seq)),
        _ if is_word(b"SEQ", text) => Some(Word::Operation(Op::Seq)),
        _ if is_word(b"SNE", text) => Some(Word::Operation(Op::Sne)),
        _ if is_word(b"SLT", text) => Some(Word::Operation(Op::Slt)),
        _ if is_word(b"SPL", text) => Some(Word::Operation(Op::Spl)),
        _ if is_word(b"NOP", text) => Some(Word::Operation(Op::Nop)),
        _ => other_word(text),
    }
}

/// The reserved word that a name is, if the word is no operation of the machine.
fn other_word(text: &[u8]) -> Option<Word>
    ensures { result ≡ named other_words text.now }
{
    match text {
        _ if is_word(b"LDP", text) => Some(Word::Pspace),
        _ if is_word(b"STP", text) => Some(Word::Pspace),
        _ if is_word(b"EQU", text) => Some(Word::Equ),
        _ if is_word(b"FOR", text) => Some(Word::For),
        _ if is_word(b"ROF", text) => Some(Word::Rof),
        _ if is_word(b"ORG", text) => Some(Word::Org),
        _ if is_word(b"END", text) => Some(Word::End),
        _ if is_word(b"PIN", text) => Some(Word::Pin),
        _ => None,
    }
}

/// The modifier of this name.
pub fn modifier_named(text: &[u8]) -> Option<Modifier>
    ensures { result ≡ named modifier_names text.now }
{
    match text {
        _ if is_word(b"A", text) => Some(Modifier::A),
        _ if is_word(b"B", text) => Some(Modifier::B),
        _ if is_word(b"AB", text) => Some(Modifier::AB),
        _ if is_word(b"BA", text) => Some(Modifier::BA),
        _ if is_word(b"F", text) => Some(Modifier::F),
        _ if is_word(b"X", text) => Some(Modifier::X),
        _ if is_word(b"I", text) => Some(Modifier::I),
        _ => None,
    }
}

/// The mode of this character.
pub fn mode_named(text: &[u8]) -> Option<Mode>
    ensures { result ≡ named mode_names text.now }
{
    match text {
        b"#" => Some(Mode::Immediate),
        b"$" => Some(Mode::Direct),
        b"*" => Some(Mode::AIndirect),
        b"@" => Some(Mode::BIndirect),
        b"{" => Some(Mode::APre),
        b"<" => Some(Mode::BPre),
        b"}" => Some(Mode::APost),
        b">" => Some(Mode::BPost),
        _ => None,
    }
}

/// The name of an operation, three capital letters.
pub fn op_text(op: Op) -> &'static str
    ensures { result.now ≡ op_text op }
{
    match op {
        Op::Dat => "DAT",
        Op::Mov => "MOV",
        Op::Add => "ADD",
        Op::Sub => "SUB",
        Op::Mul => "MUL",
        Op::Div => "DIV",
        Op::Mdl => "MOD",
        Op::Jmp => "JMP",
        Op::Jmz => "JMZ",
        Op::Jmn => "JMN",
        Op::Djn => "DJN",
        Op::Seq => "SEQ",
        Op::Sne => "SNE",
        Op::Slt => "SLT",
        Op::Spl => "SPL",
        Op::Nop => "NOP",
    }
}

/// The name of a modifier, one or two capital letters.
pub fn modifier_text(modifier: Modifier) -> &'static str
    ensures { result.now ≡ modifier_text modifier }
{
    match modifier {
        Modifier::A => "A",
        Modifier::B => "B",
        Modifier::AB => "AB",
        Modifier::BA => "BA",
        Modifier::F => "F",
        Modifier::X => "X",
        Modifier::I => "I",
    }
}

/// The sign that stands for a mode.
pub fn mode_text(mode: Mode) -> &'static str
    ensures { result.now ≡ mode_text mode }
{
    match mode {
        Mode::Immediate => "#",
        Mode::Direct => "$",
        Mode::AIndirect => "*",
        Mode::BIndirect => "@",
        Mode::APre => "{",
        Mode::BPre => "<",
        Mode::APost => "}",
        Mode::BPost => ">",
    }
}

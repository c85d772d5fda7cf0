//! The words of a definition, `NAME=VALUE`.

ghost use Rattle.std.specs.{Prelude.{◌≡◌, ◌≤◌, length, option_map}, List.{list_all, prefix_len}};
ghost use Rattle.redcode_text.specs.{Bytes.{is_letter, is_name_byte}, Tokens.is_of_kind, declared.token.TokenKind.TokenKind};
ghost use Rattle.redcode_define.specs.Definition.{definition_of, is_body_byte, is_no_equals, name_and_value};

/// A name, and the body that it has in place of its own.
#[derive(Clone, Copy)]
pub struct Definition<'d> {
    pub name: &'d [u8],
    pub value: &'d [u8],
}

/// The definition of these words: a name of Redcode, an equals sign, and a body without line feed and comment. `None` if they are none.
pub fn definition_of(text: &[u8]) -> Option<Definition<'_>>
    ensures { option_map name_and_value result ≡ definition_of text.entry.now }
{
    let length = name_length(text);
    if length == text.len() {
        return None;
    }
    let name = &text[..length];
    let value = &text[length + 1..];
    if is_redcode_name(name) && is_body(value) {
        Some(Definition { name, value })
    } else {
        None
    }
}

/// How many bytes are before the first equals sign, all if there is none.
fn name_length(text: &[u8]) -> usize
    ensures value { result ≡ prefix_len is_no_equals text.now }
    ensures within { result ≤ length text.now }
{
    for (i, byte) in text.iter().enumerate() {
        if *byte == b'=' {
            return i;
        }
    }
    text.len()
}

/// Whether a text is a name of Redcode.
fn is_redcode_name(text: &[u8]) -> bool
    ensures { result ≡ is_of_kind TokenKind.Name text.now }
{
    match text {
        [] => false,
        [first, rest @ ..] => is_letter(*first) && are_name_bytes(rest),
    }
}

fn are_name_bytes(text: &[u8]) -> bool
    ensures { result ≡ list_all is_name_byte text.now }
{
    for byte in text {
        if !(byte.is_ascii_digit() || is_letter(*byte)) {
            return false;
        }
    }
    true
}

/// What a name begins with.
fn is_letter(byte: u8) -> bool
    ensures { result ≡ is_letter byte }
{
    byte.is_ascii_alphabetic() || byte == b'_'
}

/// Whether no byte is a line feed or a semicolon.
fn is_body(text: &[u8]) -> bool
    ensures { result ≡ list_all is_body_byte text.now }
{
    for byte in text {
        if *byte == b'\n' || *byte == b';' {
            return false;
        }
    }
    true
}

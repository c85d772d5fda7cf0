//! What authors type who have pMARS by habit: its options, and sources without a command.

use std::alloc::{AllocError, Global};

/// What does the work of an option of pMARS that `koth` doesn't have, if one of these words is such an option.
pub(crate) fn habit_among(words: &[String]) -> Option<&'static str> {
    for word in words {
        if let Some(instead) = instead_of(word.as_str()) {
            return Some(instead);
        }
    }
    None
}

fn instead_of(word: &str) -> Option<&'static str> {
    if word.starts_with("-b") {
        Some("there is no '-b': 'fight' lists no warriors; 'asm' does")
    } else if word.starts_with("-k") {
        Some("there is no '-k': into a pipe, or with '--plain', 'fight' writes only the numbers")
    } else if word.starts_with("-F") {
        Some(
            "there is no '-F': positions are drawn from '--seed <NUMBER>', which is the number of '-F' less the distance",
        )
    } else if word.starts_with("-f") {
        Some(
            "there is no '-f': positions are drawn from '--seed <NUMBER>', so each match can be played again",
        )
    } else if word.starts_with("-@") {
        Some(
            "there is no '-@': give options, or take settings by '--preset <NAME>' or '--like <FILE>'",
        )
    } else {
        None
    }
}

/// Whether these words name a source where a command is pending. The first of `words` is the program's name.
pub(crate) fn begin_with_source(words: &[String]) -> bool {
    match words {
        [_, first, ..] => first.ends_with(".red") || first.ends_with(".RED"),
        _ => false,
    }
}

/// The command that words without one may mean: that the sources fight.
pub(crate) fn fight_of(heap: Global, words: &[String]) -> Result<String, AllocError> {
    let mut text = String::from_str(
        heap,
        "there is no command before the source; try 'koth fight",
    )?;
    let mut named = false;
    for word in words {
        if named {
            text.push_str(" ")?;
            text.push_str(word.as_str())?;
        }
        named = true;
    }
    text.push_str("'")?;
    Ok(text)
}

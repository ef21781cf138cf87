//! The words of runs.

use std::alloc::{AllocError, Global};

/// Puts the words of a line, in which `␣` stands for a blank within a word; those of the line `no words` are none.
pub fn put_words(alloc: Global, words: &mut Vec<String>, line: &str) -> Result<(), AllocError> {
    if line == "no words" {
        return Ok(());
    }
    for word in line.split(' ') {
        put_word(alloc, words, word)?;
    }
    Ok(())
}

fn put_word(alloc: Global, words: &mut Vec<String>, text: &str) -> Result<(), AllocError> {
    let word = word_in(alloc, text)?;
    words.push(word)?;
    Ok(())
}

fn word_in(alloc: Global, text: &str) -> Result<String, AllocError> {
    let mut word = String::new(alloc);
    put_blanks(&mut word, text)?;
    Ok(word)
}

fn put_blanks(word: &mut String, text: &str) -> Result<(), AllocError> {
    let mut begun = false;
    for part in text.split('␣') {
        if begun {
            word.push(' ')?;
        }
        word.push_str(part)?;
        begun = true;
    }
    Ok(())
}

/// Puts the words of another command for the job of a line: this beginning, then what stands behind the line's command,
/// without these options and their values.
pub fn put_words_instead(
    alloc: Global,
    words: &mut Vec<String>,
    line: &str,
    beginning: &str,
    options: &[&str],
) -> Result<(), AllocError> {
    put_words(alloc, words, beginning)?;
    let mut drops = false;
    for word in line.split(' ').skip(1) {
        let is_option = is_one_of(options, word);
        if !drops && !is_option {
            put_word(alloc, words, word)?;
        }
        drops = is_option;
    }
    Ok(())
}

/// The word is one of these.
pub fn is_one_of(words: &[&str], word: &str) -> bool {
    for one in words {
        if *one == word {
            return true;
        }
    }
    false
}

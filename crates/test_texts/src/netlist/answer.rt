//! What a text comes to, in words.

use crate::netlist::printed::printed;
use netlist_reader::{ParseErr, parse};
use netlist_tokens::{Kind, LexErr, Lexer, Token};
use std::alloc::{AllocError, Global};
use std::fmt::Write;

/// What a text comes to that stands in a file of this name: its tokens, its tree, or whether it is of the grammar.
pub fn answer_of(alloc: Global, name: &str, text: &[u8]) -> Result<String, AllocError> {
    if name == "tokens.txt" {
        tokens(alloc, text)
    } else if name == "trees.txt" {
        tree(alloc, text)
    } else {
        parsed(alloc, text)
    }
}

/// `ok`, or the byte of the refusal and its words.
pub fn parsed(alloc: Global, text: &[u8]) -> Result<String, AllocError> {
    match parse(alloc, text) {
        Ok(_) => String::from_str(alloc, "ok"),
        Err(refusal) => refused(alloc, refusal),
    }
}

fn refused(alloc: Global, refusal: ParseErr) -> Result<String, AllocError> {
    match refusal.fault() {
        Some(fault) => format!(in alloc; "{} {fault}", fault.at()),
        None => String::from_str(alloc, "memory"),
    }
}

fn tree(alloc: Global, text: &[u8]) -> Result<String, AllocError> {
    match parse(alloc, text) {
        Ok(tree) => printed(alloc, &tree),
        Err(refusal) => refused(alloc, refusal),
    }
}

/// The tokens with their bytes, then twice what is told last.
fn tokens(alloc: Global, text: &[u8]) -> Result<String, AllocError> {
    let mut out = String::new(alloc);
    let mut lexer = Lexer::new(text);
    for _ in 0..text.len() {
        match lexer.next_token() {
            Ok(Some(token)) => put_token(&mut out, token)?,
            _ => break,
        }
    }
    put_last(&mut out, lexer.next_token())?;
    out.push_str(", ")?;
    put_last(&mut out, lexer.next_token())?;
    Ok(out)
}

fn kind_word(kind: Kind) -> &'static str {
    match kind {
        Kind::Name => "name",
        Kind::Escaped => "escaped",
        Kind::Number => "number",
        Kind::Text => "text",
        Kind::Mark => "mark",
    }
}

fn put_token(out: &mut String, token: Token) -> Result<(), AllocError> {
    write!(
        out,
        "{} {}..{}, ",
        kind_word(token.kind),
        token.start,
        token.end
    )
}

fn put_last(out: &mut String, told: Result<Option<Token>, LexErr>) -> Result<(), AllocError> {
    match told {
        Ok(Some(_)) => out.push_str("one more"),
        Ok(None) => out.push_str("end"),
        Err(fault) => write!(out, "{} {fault}", fault.at()),
    }
}

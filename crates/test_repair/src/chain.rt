//! Chains: each net drives the next one.

use crate::words::{first_word, is_word, number_of};
use std::alloc::{AllocError, Global};
use std::fmt::Write;

/// What a chain is made of: its cell, the pin behind the two of the chain, and the ports of the module.
#[derive(Clone, Copy)]
struct Link {
    cell: &'static str,
    clock: &'static str,
    ports: &'static str,
}

/// Puts a module `top` with a chain of so many gates or registers, `gates 5` or `registers 5`, from `a` through `n[1]`
/// and so on, the registers with the clock `ck`.
pub fn put_chain(alloc: Global, netlist: &mut Vec<u8>, words: &str) -> Result<(), AllocError> {
    let mut text = String::new(alloc);
    put_module(&mut text, words)?;
    netlist.extend_from_slice(text.as_str().as_bytes())
}

fn put_module(text: &mut String, words: &str) -> Result<(), AllocError> {
    let (kind, count) = first_word(words);
    let link = link_of(kind);
    put_head(text, link.ports, number_of(count))?;
    put_links(text, link, number_of(count))?;
    text.push_str("endmodule\n")
}

fn link_of(kind: &str) -> Link {
    if is_word(kind, "registers") {
        Link {
            cell: "dff0",
            clock: ", ck",
            ports: "a, ck",
        }
    } else {
        Link {
            cell: "not",
            clock: "",
            ports: "a",
        }
    }
}

fn put_head(text: &mut String, ports: &str, count: u64) -> Result<(), AllocError> {
    write!(text, "module top({ports}); input {ports}; ")?;
    write!(text, "wire [{count}:0] n;\nbuf (n[0], a);\n")
}

fn put_links(text: &mut String, link: Link, count: u64) -> Result<(), AllocError> {
    for number in 0..count {
        put_link(text, link, number)?;
    }
    Ok(())
}

fn put_link(text: &mut String, link: Link, number: u64) -> Result<(), AllocError> {
    let next = number.saturating_add(1);
    write!(
        text,
        "{} (n[{next}], n[{number}]{});\n",
        link.cell, link.clock
    )
}

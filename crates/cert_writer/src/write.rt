//! What stands in a certificate's text in front of the lines between, and after them.

ghost use Rattle.std.specs.Prelude.{◌≡◌, ◌++◌, decimal, OnOk};
ghost use Rattle.cert_writer.specs.Pieces.{line_of_words};
ghost use Rattle.cert_writer.specs.Text.{beginning_text, end_text, head_words, title, with_newline};

use crate::cert::{Form, Head};
use base_lists::{Memory, put, put_number};

/// Puts the first two lines of a certificate after a text. Takes the text's bytes, in steps that double.
pub fn put_beginning(text: &mut Vec<u8>, form: Form, head: Head) -> Result<(), Memory>
    ensures { OnOk result (text.new.items ≡ text.old.items ++ beginning_text form head) }
{
    put(text, title_line(form))?;
    put_head(text, head)?;
    Ok(())
}

fn title_line(form: Form) -> &'static [u8]
    ensures { result.now ≡ with_newline (title form) }
{
    match form {
        Form::Lines => b"xrepair certificate 1\n",
        Form::Turns => b"xrepair certificate 2\n",
    }
}

// head = "rounds" number "conflicts" number "moments" number "nets" number
fn put_head(text: &mut Vec<u8>, head: Head) -> Result<(), Memory>
    ensures { OnOk result (text.new.items ≡ text.old.items ++ with_newline (line_of_words (head_words head))) }
{
    put_field(text, b"rounds ", head.rounds)?;
    put_field(text, b" conflicts ", head.conflicts)?;
    put_field(text, b" moments ", head.moments)?;
    put_field(text, b" nets ", head.nets)?;
    put(text, b"\n")?;
    Ok(())
}

fn put_field(text: &mut Vec<u8>, word: &[u8], number: u32) -> Result<(), Memory>
    ensures { OnOk result (text.new.items ≡ text.old.items ++ (word.now ++ decimal number)) }
{
    put(text, word)?;
    put_number(text, u64::from(number))
}

/// Puts the last line of a certificate, which has so many lines between, after a text. Takes the text's bytes, in steps
/// that double.
pub fn put_end(text: &mut Vec<u8>, count: usize) -> Result<(), Memory>
    ensures { OnOk result (text.new.items ≡ text.old.items ++ end_text count) }
{
    put(text, b"end ")?;
    put_number(text, count as u64)?;
    put(text, b"\n")
}

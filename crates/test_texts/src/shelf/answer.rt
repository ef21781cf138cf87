//! Answers of calls in words.

use base_lists::Memory;
use base_shelf::{IoErr, ReadErr, WriteErr};
use std::alloc::{AllocError, Global};

/// What a call answered.
#[derive(Drop)]
pub enum Answer {
    Done,
    Fault,
    TooLong,
    Memory,
    /// Other words, or bytes.
    Words(Vec<u8>),
}

impl Answer {
    /// The answer in words.
    pub fn words(&self) -> &[u8] {
        match self {
            Answer::Done => b"ok",
            Answer::Fault => b"fault",
            Answer::TooLong => b"too long",
            Answer::Memory => b"memory",
            Answer::Words(words) => words.as_slice(),
        }
    }
}

impl From<Memory> for Answer {
    fn from(_: Memory) -> Answer {
        Answer::Memory
    }
}

impl From<IoErr> for Answer {
    fn from(fault: IoErr) -> Answer {
        match fault {
            IoErr::Failed => Answer::Fault,
            IoErr::Memory => Answer::Memory,
        }
    }
}

impl From<ReadErr> for Answer {
    fn from(fault: ReadErr) -> Answer {
        match fault {
            ReadErr::Fault => Answer::Fault,
            ReadErr::TooLong => Answer::TooLong,
            ReadErr::Memory => Answer::Memory,
        }
    }
}

impl From<WriteErr> for Answer {
    fn from(fault: WriteErr) -> Answer {
        match fault {
            WriteErr::Fault => Answer::Fault,
            WriteErr::Memory => Answer::Memory,
        }
    }
}

/// The answer of a call that gives nothing.
pub fn done<E: Drop>(answer: Result<(), E>) -> Answer
where
    Answer: From<E>,
{
    match answer {
        Ok(()) => Answer::Done,
        Err(fault) => Answer::from(fault),
    }
}

/// The bytes between quotes; where they are more than 100, their number and the first.
pub fn quoted(alloc: Global, bytes: &[u8]) -> Result<Answer, AllocError> {
    let mut words = Vec::new(alloc);
    if bytes.len() > 100 {
        let count = format!(in alloc; "{} bytes ", bytes.len())?;
        words.extend_from_slice(count.as_str().as_bytes())?;
        words.extend_from_slice(&bytes[..1])?;
        return Ok(Answer::Words(words));
    }
    words.push(b'"')?;
    words.extend_from_slice(bytes)?;
    words.push(b'"')?;
    Ok(Answer::Words(words))
}

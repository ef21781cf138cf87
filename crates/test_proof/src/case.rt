//! A line of a case file: a call, and what must come.

use crate::answer::Answer;
use crate::dimacs::{formula_of, numbers_of};
use crate::families::Family;
use crate::logs::{ROOMS, fresh, refuting};
use crate::searches::{log_of, solved};
use base_lists::Memory;
use sat_proof::Cnf;
use std::alloc::{AllocError, Global};
use std::rt::Files;
use std::{fs, io, str};
use test_cases::{Line, Report};

/// Does what a line says, and compares what it answered.
pub(crate) fn run_case<R: Files + AllocGlobal>(
    rt: &R,
    report: &mut Report,
    line: Line<'_>,
) -> io::Result<()> {
    let text = str::from_utf8(line.text).unwrap_or("");
    let (call, want) = text.split_once(" -> ").unwrap_or((text, ""));
    let (verb, rest) = first_word(call);
    let mut compare = Compare {
        alloc: rt.alloc(),
        report,
        line: line.number,
        want,
    };
    match verb {
        "check" => check(rt, &mut compare, rest, None)?,
        "flip" => {
            let (place, rest) = first_word(rest);
            check(rt, &mut compare, rest, Some(number_of(place)))?;
        }
        "fresh" => {
            let (limit, rest) = first_word(rest);
            check_fresh(rt, &mut compare, rest, number_of(limit))?;
        }
        "solve" | "log" => {
            let (limit, rest) = first_word(rest);
            search(rt, &mut compare, verb, rest, number_of(limit))?;
        }
        _ => compare.answer(family(rt.alloc(), verb, rest))?,
    }
    compare.report.end_case();
    Ok(())
}

/// What must come, and the report that notes what came.
#[derive(Drop)]
struct Compare<'a> {
    alloc: Global,
    report: &'a mut Report,
    line: usize,
    want: &'a str,
}

impl Compare<'_> {
    fn answer(&mut self, came: Result<Answer, Memory>) -> Result<(), AllocError> {
        let answer = came.unwrap_or(Answer::Memory);
        let words = format!(in self.alloc; "{answer}")?;
        self.report
            .compare(self.line, self.want.as_bytes(), words.as_str().as_bytes())
    }
}

/// A word, and what stands behind it.
fn first_word(words: &str) -> (&str, &str) {
    words.split_once(' ').unwrap_or((words, ""))
}

fn number_of(word: &str) -> u32 {
    word.parse::<u32>().unwrap_or(0)
}

/// The text that a part of a call stands for: a file's, or its own.
fn text_of<R: Files + AllocGlobal>(rt: &R, part: &str) -> io::Result<String> {
    if part.ends_with(".cnf") || part.ends_with(".log") {
        fs::read_to_string(rt, part)
    } else {
        Ok(String::from_str(rt.alloc(), part)?)
    }
}

/// A formula, and the numbers of a log.
fn parts_of<R: Files + AllocGlobal>(rt: &R, parts: &str) -> io::Result<Option<(Cnf, Vec<i32>)>> {
    let (formula, log) = parts.split_once(" | ").unwrap_or((parts, "none"));
    let formula = text_of(rt, formula)?;
    let log = text_of(rt, log)?;
    let Some(formula) = formula_of(rt.alloc(), formula.as_str())? else {
        return Ok(None);
    };
    let Some(numbers) = numbers_of(rt.alloc(), log.as_str())? else {
        return Ok(None);
    };
    Ok(Some((formula, numbers)))
}

/// `check FORMULA | LOG` in each room; `flip PLACE FORMULA | LOG` with the log's number at a place, from 0, made its
/// complement.
fn check<R: Files + AllocGlobal>(
    rt: &R,
    compare: &mut Compare<'_>,
    parts: &str,
    flip: Option<u32>,
) -> io::Result<()> {
    let Some((formula, numbers)) = parts_of(rt, parts)? else {
        return Ok(compare.answer(Ok(Answer::Unread))?);
    };
    let numbers = flipped(rt.alloc(), numbers.as_slice(), flip)?;
    for room in ROOMS {
        compare.answer(refuting(rt.alloc(), room, &formula, numbers.as_slice()))?;
    }
    Ok(())
}

fn flipped(alloc: Global, numbers: &[i32], flip: Option<u32>) -> Result<Vec<i32>, AllocError> {
    let mut log = Vec::new(alloc);
    let mut place: u32 = 0;
    for number in numbers {
        if flip == Some(place) {
            log.push(number.wrapping_neg())?;
        } else {
            log.push(*number)?;
        }
        place = place.saturating_add(1);
    }
    Ok(log)
}

/// `fresh LIMIT FORMULA | LOG` in each room.
fn check_fresh<R: Files + AllocGlobal>(
    rt: &R,
    compare: &mut Compare<'_>,
    parts: &str,
    limit: u32,
) -> io::Result<()> {
    let Some((formula, numbers)) = parts_of(rt, parts)? else {
        return Ok(compare.answer(Ok(Answer::Unread))?);
    };
    for room in ROOMS {
        compare.answer(fresh(rt.alloc(), room, &formula, numbers.as_slice(), limit))?;
    }
    Ok(())
}

/// `solve LIMIT FORMULA`, and `log LIMIT FORMULA` for the log alone.
fn search<R: Files + AllocGlobal>(
    rt: &R,
    compare: &mut Compare<'_>,
    verb: &str,
    formula: &str,
    limit: u32,
) -> io::Result<()> {
    let text = text_of(rt, formula)?;
    match formula_of(rt.alloc(), text.as_str())? {
        Some(formula) if verb == "log" => compare.answer(log_of(rt.alloc(), &formula, limit))?,
        Some(formula) => compare.answer(solved(rt.alloc(), &formula, limit))?,
        None => compare.answer(Ok(Answer::Unread))?,
    }
    Ok(())
}

/// `every CLAUSES VARIABLES LIMIT`, `drawn COUNT CLAUSES VARIABLES LIMIT`, and `held` with one of these after it,
/// which answers how many answers hold.
fn family(alloc: Global, verb: &str, rest: &str) -> Result<Answer, Memory> {
    match verb {
        "held" => {
            let (verb, rest) = first_word(rest);
            Ok(held(counted(alloc, verb, rest)?))
        }
        _ => counted(alloc, verb, rest),
    }
}

fn held(answer: Answer) -> Answer {
    match answer {
        Answer::Tally(tally) => Answer::Held(tally.sum()),
        _ => answer,
    }
}

fn counted(alloc: Global, verb: &str, rest: &str) -> Result<Answer, Memory> {
    let (first, rest) = first_word(rest);
    let (second, rest) = first_word(rest);
    let (third, fourth) = first_word(rest);
    match verb {
        "every" => {
            let family = Family {
                clauses: number_of(first),
                vars: number_of(second),
            };
            family.every(alloc, number_of(third))
        }
        "drawn" => {
            let family = Family {
                clauses: number_of(second),
                vars: number_of(third),
            };
            family.drawn(alloc, number_of(first), number_of(fourth))
        }
        _ => Ok(Answer::Unread),
    }
}

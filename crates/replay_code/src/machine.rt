//! Reading code token by token: what comes of a token in a state.

ghost use Rattle.std.specs.Prelude.{◌≡◌, ◌+◌, ◌*◌, ◌<◌, ◌^◌, IfErr, OnOk, length};
ghost use Rattle.replay_code.specs.Clock as clock;
ghost use Rattle.replay_code.specs.Going.{Goes, HasNet, IsThere, Steps};
ghost use Rattle.replay_code.specs.Machine as spec;
ghost use Rattle.replay_code.specs.Statements.{forced_now};
ghost use Rattle.replay_code.specs.View.{code_of};
ghost use Rattle.replay_code.specs.Words as words;

use crate::code::Code;
use crate::fault::CodeFault;
use crate::lookup::{moment_from, net_named};
use crate::progress::Progress;
use crate::refusal::CodeErr;
use crate::state::State;
use crate::words::{digits_of, is_mark, is_word, name_of, number_of, value_of};
use design_cell::Value;
use design_circuit::Event;
use netlist_tokens::Token;
use std::alloc::Global;

/// What comes of a token in a state.
pub fn step(
    alloc: Global,
    state: State,
    progress: &mut Progress<'_>,
    token: Token,
) -> Result<State, CodeErr>
    requires there { IsThere progress.old }
    requires net { HasNet progress.old.code state }
    ensures { Steps (spec.step state progress.old token) result progress.new }
{
    let code = progress.code;
    match state {
        State::Module => after_word(&code, token, b"module", State::Title),
        State::Title => after_word(&code, token, b"xrepair_code", State::Semicolon),
        State::Semicolon => after_mark(&code, token, b";", State::Initial),
        State::Initial => after_word(&code, token, b"initial", State::Begin),
        State::Begin => after_word(&code, token, b"begin", State::Body),
        State::Body => at_body(progress, token),
        State::Wait(at) => at_wait(progress, at, token),
        State::WaitEnd => after_mark(&code, token, b";", State::Body),
        State::NameNext => at_name(progress, token),
        State::AfterName => after_name(alloc, progress, token),
        State::Index => at_index(progress, token),
        State::IndexEnd => after_mark(&code, token, b"]", State::PathEnd),
        State::PathEnd => at_target(alloc, progress, token),
        State::Bit(net) => at_bit(progress, token, net),
        State::StatementEnd => after_mark(&code, token, b";", State::Body),
        State::Tail => after_word(&code, token, b"endmodule", State::Done),
        State::Done => Err(refused(token)),
    }
}

fn refused(token: Token) -> CodeErr
    ensures { result ≡ CodeErr.Refused (CodeFault.Syntax token.start) }
{
    CodeErr::Refused(CodeFault::Syntax { at: token.start })
}

/// One word, and what may stand behind it.
fn after_word(code: &Code<'_>, token: Token, word: &[u8], next: State) -> Result<State, CodeErr>
    ensures { Goes (words.is_word code.now.text.now token word.now) token next result }
{
    if is_word(code.text, token, word) {
        Ok(next)
    } else {
        Err(refused(token))
    }
}

/// One mark, and what may stand behind it.
fn after_mark(code: &Code<'_>, token: Token, mark: &[u8], next: State) -> Result<State, CodeErr>
    ensures { Goes (words.is_mark code.now.text.now token mark.now) token next result }
{
    if is_mark(code.text, token, mark) {
        Ok(next)
    } else {
        Err(refused(token))
    }
}

/// A statement, or `end`.
fn at_body(progress: &mut Progress<'_>, token: Token) -> Result<State, CodeErr>
    ensures { Steps (spec.body progress.old token) result progress.new }
{
    let text = progress.code.text;
    if is_mark(text, token, b"#") {
        Ok(State::Wait(token.start))
    } else if is_word(text, token, b"force") {
        begin_statement(progress, true, token.start)
    } else if is_word(text, token, b"release") {
        begin_statement(progress, false, token.start)
    } else if is_word(text, token, b"end") {
        Ok(State::Tail)
    } else {
        Err(refused(token))
    }
}

/// A force or a release needs a moment.
fn begin_statement(progress: &mut Progress<'_>, forces: bool, at: usize) -> Result<State, CodeErr>
    ensures { Steps (spec.statement_by progress.old forces at progress.old.moment) result progress.new }
{
    if progress.moment.is_none() {
        return Err(CodeErr::Refused(CodeFault::NoMoment { at }));
    }
    progress.forces = forces;
    progress.at = at;
    progress.texts.clear();
    progress.index = None;
    Ok(State::NameNext)
}

/// The number of a wait.
fn at_wait(progress: &mut Progress<'_>, at: usize, token: Token) -> Result<State, CodeErr>
    requires { IsThere progress.old }
    ensures { Steps (spec.wait_by progress.old at token (words.number_of progress.old.code.text token)) result
        progress.new }
{
    match digits_of(progress.code.text, token) {
        None => Err(refused(token)),
        Some(digits) => match number_of(digits) {
            None => Err(CodeErr::Refused(CodeFault::NoMoment { at })),
            Some(units) => wait_for(progress, at, units),
        },
    }
}

fn wait_for(progress: &mut Progress<'_>, at: usize, units: u64) -> Result<State, CodeErr>
    requires { IsThere progress.old }
    ensures { Steps (spec.waited progress.old at units) result progress.new }
{
    if units == 0 {
        next_round(progress, at)
    } else {
        next_time(progress, at, units)
    }
}

fn next_round(progress: &mut Progress<'_>, at: usize) -> Result<State, CodeErr>
    requires { IsThere progress.old }
    ensures { Steps (spec.round_on progress.old at progress.old.moment) result progress.new }
{
    if progress.moment.is_none() {
        return Err(CodeErr::Refused(CodeFault::NoMoment { at }));
    }
    if progress.round + 1 == progress.code.stim.rounds {
        return Err(CodeErr::Refused(CodeFault::RoundPast { at }));
    }
    progress.round += 1;
    Ok(State::WaitEnd)
}

fn next_time(progress: &mut Progress<'_>, at: usize, units: u64) -> Result<State, CodeErr>
    requires there { IsThere progress.old }
    requires some { 0 < units }
    ensures { Steps (spec.time_on progress.old at (progress.old.time + units)
        (clock.moment_by progress.old.code.stim (progress.old.time + units))) result progress.new }
{
    let Some(time) = progress.time.checked_add(units) else {
        return Err(CodeErr::Refused(CodeFault::NoMoment { at }));
    };
    let Some(moment) = later_moment(progress, time) else {
        return Err(CodeErr::Refused(CodeFault::NoMoment { at }));
    };
    progress.time = time;
    progress.moment = Some(moment);
    progress.round = 0;
    Ok(State::WaitEnd)
}

/// The moment at a later time.
fn later_moment(progress: &Progress<'_>, time: u64) -> Option<usize>
    requires there { IsThere progress.now }
    requires later { progress.now.time < time }
    ensures { result ≡ clock.moment_at progress.now.code.stim time }
{
    match progress.moment {
        Some(moment) => moment_from(progress.code.stim, moment + 1, time),
        None => moment_from(progress.code.stim, 0, time),
    }
}

/// A name of a path.
fn at_name(progress: &mut Progress<'_>, token: Token) -> Result<State, CodeErr>
    ensures { Steps (spec.name_by progress.old token (words.token_name progress.old.code.text token)) result progress.new }
{
    match name_of(progress.code.text, token) {
        None => Err(refused(token)),
        Some(name) => {
            if progress.texts.is_empty() {
                progress.at = token.start;
            }
            progress.texts.push(name)?;
            Ok(State::AfterName)
        }
    }
}

/// The number of an index.
fn at_index(progress: &mut Progress<'_>, token: Token) -> Result<State, CodeErr>
    ensures { Steps (spec.index_by progress.old token (words.number_of progress.old.code.text token)) result
        progress.new }
{
    match digits_of(progress.code.text, token) {
        None => Err(refused(token)),
        Some(digits) => {
            progress.index = Some(capped(number_of(digits)));
            Ok(State::IndexEnd)
        }
    }
}

/// An index, as 2^31 where it isn't below that.
fn capped(number: Option<u64>) -> u32
    ensures { result ≡ spec.capped_of number }
{
    match number {
        Some(index) if index < 1 << 31 => index as u32,
        _ => 1 << 31,
    }
}

/// What stands behind a name.
fn after_name(alloc: Global, progress: &mut Progress<'_>, token: Token) -> Result<State, CodeErr>
    requires { IsThere progress.old }
    ensures { Steps (spec.after_name progress.old token) result progress.new }
{
    let text = progress.code.text;
    if is_mark(text, token, b".") {
        Ok(State::NameNext)
    } else if is_mark(text, token, b"[") {
        Ok(State::Index)
    } else {
        at_target(alloc, progress, token)
    }
}

/// What stands behind the path of a statement.
fn at_target(alloc: Global, progress: &mut Progress<'_>, token: Token) -> Result<State, CodeErr>
    requires { IsThere progress.old }
    ensures { Steps (spec.target progress.old token) result progress.new }
{
    let Some(moment) = progress.moment else {
        return Err(CodeErr::Refused(CodeFault::NoMoment { at: progress.at }));
    };
    let Some(net) = net_named(alloc, progress)? else {
        return Err(CodeErr::Refused(CodeFault::NoNet { at: progress.at }));
    };
    if progress.forces {
        let code = progress.code;
        return after_mark(&code, token, b"=", State::Bit(net));
    }
    release(progress, token, moment, net)
}

/// The end of a release.
fn release(
    progress: &mut Progress<'_>,
    token: Token,
    moment: usize,
    net: u32,
) -> Result<State, CodeErr>
    requires there { IsThere progress.old }
    requires moment { moment < length progress.old.code.stim.times }
    requires net { net < length progress.old.code.design.nets }
    ensures { Steps (spec.release_by progress.old token moment net (forced_now progress.old.events net)) result
        progress.new }
{
    if progress.statements.forced(net).is_none() {
        return Err(CodeErr::Refused(CodeFault::ReleaseUnforced { at: progress.at }));
    }
    if !is_mark(progress.code.text, token, b";") {
        return Err(refused(token));
    }
    push_event(progress, moment, net, None)?;
    Ok(State::Body)
}

/// The value to which a net is forced.
fn at_bit(progress: &mut Progress<'_>, token: Token, net: u32) -> Result<State, CodeErr>
    requires there { IsThere progress.old }
    requires net { net < length progress.old.code.design.nets }
    ensures { Steps (spec.bit_by progress.old token net progress.old.moment
        (words.value_of progress.old.code.text token)) result progress.new }
{
    let Some(value) = value_of(progress.code.text, token) else {
        return Err(refused(token));
    };
    let Some(moment) = progress.moment else {
        return Err(refused(token));
    };
    push_event(progress, moment, net, Some(value))?;
    Ok(State::StatementEnd)
}

/// An event at the present step.
fn push_event(
    progress: &mut Progress<'_>,
    moment: usize,
    net: u32,
    value: Option<Value>,
) -> Result<(), CodeErr>
    requires there { IsThere progress.old }
    requires moment { moment < length progress.old.code.stim.times }
    requires net { net < length progress.old.code.design.nets }
    ensures pushed { OnOk result (progress.new ≡ spec.with_event progress.old moment net value) }
    ensures memory { IfErr result (λ e. e ≡ CodeErr.Memory) }
{
    let step = moment as u64 * progress.code.stim.rounds as u64 + progress.round as u64;
    progress.statements.push(Event {
        step: step as u32,
        net,
        value,
    })?;
    Ok(())
}

//! Reading the tokens of code: its statements, in the order in which they stand.

ghost use Rattle.std.specs.Prelude.{◌≡◌, ◌<◌, Err, IfErr, IfOk, IfSome, length};
ghost use Rattle.std.specs.List.Sorted.{IsStrictlyIncreasing};
ghost use Rattle.design_circuit.specs.Design.{FitsDesign};
ghost use Rattle.replay_code.specs.Going.{AreStatements, IsThere, ReadsEvents, RefusesCode};
ghost use Rattle.replay_code.specs.Machine as spec;
ghost use Rattle.replay_code.specs.Fault.{fault_in};
ghost use Rattle.replay_code.specs.Says.{FirstFault, statements_of};
ghost use Rattle.replay_code.specs.View.{code_of};
ghost use Rattle.netlist_tokens.specs.Left.{Left as left};
ghost use Rattle.netlist_tokens.specs.Tokens.{Tokens};

use crate::code::Code;
use crate::fault::CodeFault;
use crate::lookup::net_named;
use crate::machine::step;
use crate::progress::Progress;
use crate::refusal::CodeErr;
use crate::state::State;
use design_circuit::Event;
use netlist_tokens::Lexer;
use std::alloc::Global;

/// The events of the statements of a code text, in the order in which these stand, or its first fault.
pub fn read_statements(alloc: Global, code: Code<'_>) -> Result<Vec<Event>, CodeErr>
    requires design { FitsDesign code.design.now }
    requires times { IsStrictlyIncreasing code.stim.now.times }
    ensures some { (tokens : left) × Tokens 0 code.entry.text.now tokens }
    ensures reads { (tokens : left) → Tokens 0 code.entry.text.now tokens
        → ReadsEvents (statements_of (code_of code.entry) tokens) result }
    ensures first { IfErr result (λ e. IfSome (fault_in e) (FirstFault (code_of code.entry))) }
    ensures stand { IfOk result (λ events. AreStatements (code_of code.entry) events.items) }
{
    let mut lexer = Lexer::new(code.text);
    run_tokens(alloc, code, &mut lexer)
}

/// What the tokens of a text come to.
fn run_tokens(alloc: Global, code: Code<'_>, lexer: &mut Lexer<'_>) -> Result<Vec<Event>, CodeErr>
    requires design { FitsDesign code.design.now }
    requires times { IsStrictlyIncreasing code.stim.now.times }
    ensures reads { ReadsEvents (statements_of (code_of code.entry) lexer.old) result }
    ensures stand { IfOk result (λ events. AreStatements (code_of code.entry) events.items) }
{
    let mut progress = Progress::new(alloc, code)?;
    let mut state = State::Module;
    'tokens: loop {
        match lexer.next_token() {
            Ok(Some(token)) => state = step(alloc, state, &mut progress, token)?,
            Ok(None) => return finish(alloc, state, progress, code.text.len()),
            Err(fault) => return finish(alloc, state, progress, fault.at()),
        }
    }
}

/// What a text comes to that ends here.
fn finish(
    alloc: Global,
    state: State,
    progress: Progress<'_>,
    stop: usize,
) -> Result<Vec<Event>, CodeErr>
    requires { IsThere progress }
    ensures reads { ReadsEvents (spec.finish state progress.entry stop) result }
    ensures stand { IfOk result (λ events. AreStatements progress.entry.code events.items) }
{
    match state {
        State::Done => whole(progress, stop),
        State::AfterName => Err(ended(alloc, &progress, stop)),
        State::PathEnd => Err(ended(alloc, &progress, stop)),
        _ => Err(CodeErr::Refused(CodeFault::Syntax { at: stop })),
    }
}

/// What a text comes to whose tokens end behind the last one of the grammar: at its end, or at a byte that begins none.
fn whole(progress: Progress<'_>, stop: usize) -> Result<Vec<Event>, CodeErr>
    requires { IsThere progress }
    ensures reads { ReadsEvents (spec.ended_whole progress.entry stop) result }
    ensures stand { IfOk result (λ events. AreStatements progress.entry.code events.items) }
{
    if stop == progress.code.text.len() {
        Ok(progress.into_events())
    } else {
        Err(CodeErr::Refused(CodeFault::Syntax { at: stop }))
    }
}

/// The fault of a text that ends behind the path of a statement.
fn ended(alloc: Global, progress: &Progress<'_>, stop: usize) -> CodeErr
    requires { IsThere progress.now }
    ensures { RefusesCode (spec.ended_target progress.now stop) result }
{
    if progress.moment.is_none() {
        return CodeErr::Refused(CodeFault::NoMoment { at: progress.at });
    }
    match net_named(alloc, progress) {
        Ok(Some(net)) => CodeErr::Refused(ended_at(progress, net, stop)),
        Ok(None) => CodeErr::Refused(CodeFault::NoNet { at: progress.at }),
        Err(_) => CodeErr::Memory,
    }
}

/// The same behind the path of a net.
fn ended_at(progress: &Progress<'_>, net: u32, stop: usize) -> CodeFault
    requires { net < length progress.now.code.design.nets }
    ensures { spec.ended_net progress.now stop net ≡ Err result }
{
    if !progress.forces && progress.statements.forced(net).is_none() {
        return CodeFault::ReleaseUnforced { at: progress.at };
    }
    CodeFault::Syntax { at: stop }
}

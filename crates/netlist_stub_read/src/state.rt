//! What stands before a token of a module.

ghost use Rattle.std.specs.Prelude.{◌≡◌};
ghost use Rattle.netlist_trim.specs.Shown.{seen};
ghost use Rattle.netlist_stub_read.specs.Parts as spec;
ghost use Rattle.netlist_stub_read.specs.declared.state.State.TheVariants.{After, Named};

use crate::role::Role;
use crate::word::{
    Word, closes_bracket, closes_routine, is, is_direction, is_parameter, opens_block,
    opens_bracket, opens_routine, word_of,
};
use netlist_trim::Spelled;

/// A list of declarations.
#[derive(Clone, Copy)]
pub enum Series {
    /// The parameters between a module's name and its ports.
    Defaults,
    /// The ports of its header.
    Header,
    /// Those of an item, before which parameters are the module's own or not.
    Ports(bool),
    /// The parameters of an item.
    Parameters,
}

/// What stands before a token of a module.
#[derive(Clone, Copy)]
pub enum State {
    /// The module's name, or the parameters after it.
    Named,
    /// The `#` before these.
    Hash,
    /// The `(` of the ports.
    Opened,
    /// A list, up to a name.
    Before(Series),
    /// A list, up to and with a name.
    After(Series),
    /// The `[` of a range.
    Range(Series),
    /// The `]` of a range.
    Ranged(Series),
    /// The `=` of a value, in so many brackets.
    Value(Series, usize),
    /// The `)` of the ports.
    Closed,
    /// The header. Parameters are the module's own or not.
    Items(bool),
    /// The word that opens a function or a task.
    Routine(bool),
}

impl Series {
    ghost use Rattle.std.specs.Prelude.{◌≡◌};
    ghost use Rattle.netlist_trim.specs.Shown.{seen};
    ghost use Rattle.netlist_stub_read.specs.Parts as spec;

    fn are_ports(self) -> bool
        ensures { result ≡ spec.are_ports self }
    {
        match self {
            Series::Defaults => false,
            Series::Header => true,
            Series::Ports(_) => true,
            Series::Parameters => false,
        }
    }

    /// Whether the list ends with a token.
    fn ends(self, token: Spelled<'_>) -> bool
        ensures { result ≡ spec.ends self (seen token.entry) }
    {
        match self {
            Series::Defaults => is(token, b")"),
            Series::Header => is(token, b")"),
            Series::Ports(_) => is(token, b";"),
            Series::Parameters => is(token, b";"),
        }
    }

    /// What comes after its end.
    fn after(self) -> State
        ensures { result ≡ spec.after self }
    {
        match self {
            Series::Defaults => State::Named,
            Series::Header => State::Closed,
            Series::Ports(own) => State::Items(own),
            Series::Parameters => State::Items(true),
        }
    }

    /// What a name is.
    fn name_role(self) -> Role
        ensures { result ≡ spec.name_role self }
    {
        match self {
            Series::Defaults => Role::Port,
            Series::Header => Role::Port,
            Series::Ports(_) => Role::Declared,
            Series::Parameters => Role::Declared,
        }
    }
}

impl State {
    ghost use Rattle.std.specs.Prelude.{◌≡◌};
    ghost use Rattle.netlist_trim.specs.Shown.{seen};
    ghost use Rattle.netlist_stub_read.specs.Parts as spec;

    /// What comes after a token.
    pub fn next(self, token: Spelled<'_>) -> State
        ensures { result ≡ spec.next self (seen token.entry) }
    {
        match self {
            State::Named => next_named(token),
            State::Hash if is(token, b"(") => State::Before(Series::Defaults),
            State::Hash => State::Hash,
            State::Opened if is(token, b")") => State::Closed,
            State::Opened => next_before(Series::Header, word_of(token)),
            State::Before(series) => next_before(series, word_of(token)),
            State::After(series) => next_after(series, token),
            State::Range(series) if is(token, b"]") => State::Ranged(series),
            State::Range(series) => State::Range(series),
            State::Ranged(series) => next_before(series, word_of(token)),
            State::Value(series, depth) => next_value(series, depth, token),
            State::Closed if is(token, b";") => State::Items(true),
            State::Closed => State::Closed,
            State::Items(own) => next_item(own, token),
            State::Routine(own) if closes_routine(token) => State::Items(own),
            State::Routine(own) => State::Routine(own),
        }
    }

    /// What a token is, if it declares.
    pub fn role_of(self, token: Spelled<'_>) -> Option<Role>
        ensures { result ≡ spec.role_of self (seen token.entry) }
    {
        match self {
            State::Named => expected(is(token, b"#") || is(token, b"(") || is(token, b";")),
            State::Hash => expected(is(token, b"(")),
            State::Opened if is(token, b")") => None,
            State::Opened => before_role(Series::Header, word_of(token)),
            State::Before(series) => before_role(series, word_of(token)),
            State::After(series) => after_role(series, token),
            State::Range(series) => range_role(series, token),
            State::Ranged(series) => ranged_role(series, word_of(token)),
            State::Value(series, depth) => value_role(series, depth, token),
            State::Closed => expected(is(token, b";")),
            State::Items(own) => item_role(own, token),
            State::Routine(_) => None,
        }
    }
}

fn next_named(token: Spelled<'_>) -> State
    ensures { result ≡ spec.next Named (seen token.entry) }
{
    if is(token, b"#") {
        State::Hash
    } else if is(token, b"(") {
        State::Opened
    } else if is(token, b";") {
        State::Items(true)
    } else {
        State::Named
    }
}

fn next_before(series: Series, word: Word) -> State
    ensures { result ≡ spec.next_before series word }
{
    match word {
        Word::Direction => State::Before(series),
        Word::Parameter => State::Before(series),
        Word::Real => State::Before(series),
        Word::Integer => State::Before(series),
        Word::Plain => State::Before(series),
        Word::Bracket => State::Range(series),
        Word::Name => State::After(series),
        Word::Other => State::Before(series),
    }
}

fn next_after(series: Series, token: Spelled<'_>) -> State
    ensures { result ≡ spec.next (After series) (seen token.entry) }
{
    if is(token, b",") {
        State::Before(series)
    } else if is(token, b"=") {
        State::Value(series, 0)
    } else if series.ends(token) {
        series.after()
    } else {
        State::After(series)
    }
}

fn next_value(series: Series, depth: usize, token: Spelled<'_>) -> State
    ensures { result ≡ spec.next_value series depth (seen token.entry) }
{
    if depth == 0 && is(token, b",") {
        State::Before(series)
    } else if depth == 0 && series.ends(token) {
        series.after()
    } else {
        State::Value(series, depth_after(depth, token))
    }
}

/// How deep in brackets it goes on.
fn depth_after(depth: usize, token: Spelled<'_>) -> usize
    ensures { result ≡ spec.depth_after depth (seen token.entry) }
{
    if opens_bracket(token) {
        depth.saturating_add(1)
    } else if closes_bracket(token) {
        depth.saturating_sub(1)
    } else {
        depth
    }
}

fn next_item(own: bool, token: Spelled<'_>) -> State
    ensures { result ≡ spec.next_item own (seen token.entry) }
{
    if is_direction(token) {
        State::Before(Series::Ports(own))
    } else if own && is_parameter(token) {
        State::Before(Series::Parameters)
    } else if opens_routine(token) {
        State::Routine(own)
    } else if opens_block(token) {
        State::Items(false)
    } else {
        State::Items(own)
    }
}

fn before_role(series: Series, word: Word) -> Option<Role>
    ensures { result ≡ spec.before_role series word }
{
    if series.are_ports() {
        port_role(series, word)
    } else {
        parameter_role(word)
    }
}

fn port_role(series: Series, word: Word) -> Option<Role>
    ensures { result ≡ spec.port_role series word }
{
    match word {
        Word::Direction => Some(Role::Direction),
        Word::Parameter => Some(Role::Unexpected),
        Word::Real => Some(Role::Unexpected),
        Word::Integer => Some(Role::Unexpected),
        Word::Plain => None,
        Word::Bracket => Some(Role::Open),
        Word::Name => Some(series.name_role()),
        Word::Other => Some(Role::Unexpected),
    }
}

fn parameter_role(word: Word) -> Option<Role>
    ensures { result ≡ spec.parameter_role word }
{
    match word {
        Word::Direction => Some(Role::Unexpected),
        Word::Parameter => Some(Role::Keyword),
        Word::Real => Some(Role::Typed),
        Word::Integer => None,
        Word::Plain => None,
        Word::Bracket => Some(Role::Typed),
        Word::Name => Some(Role::Parameter),
        Word::Other => Some(Role::Unexpected),
    }
}

/// After a range there is no other.
fn ranged_role(series: Series, word: Word) -> Option<Role>
    ensures { result ≡ spec.ranged_role series word }
{
    match word {
        Word::Direction => before_role(series, word),
        Word::Parameter => before_role(series, word),
        Word::Real => before_role(series, word),
        Word::Integer => before_role(series, word),
        Word::Plain => before_role(series, word),
        Word::Bracket => Some(Role::Unexpected),
        Word::Name => before_role(series, word),
        Word::Other => before_role(series, word),
    }
}

fn after_role(series: Series, token: Spelled<'_>) -> Option<Role>
    ensures { result ≡ spec.after_role series (seen token.entry) }
{
    if is(token, b",") {
        None
    } else if is(token, b"=") {
        begin_role(series)
    } else if series.ends(token) {
        None
    } else {
        Some(Role::Unexpected)
    }
}

/// What the `=` after a name is.
fn begin_role(series: Series) -> Option<Role>
    ensures { result ≡ spec.begin_role series }
{
    if series.are_ports() {
        None
    } else {
        Some(Role::Begin)
    }
}

fn range_role(series: Series, token: Spelled<'_>) -> Option<Role>
    ensures { result ≡ spec.range_role series (seen token.entry) }
{
    if series.are_ports() {
        Some(bound_role(token))
    } else {
        None
    }
}

fn bound_role(token: Spelled<'_>) -> Role
    ensures { result ≡ spec.bound_role (seen token.entry) }
{
    if is(token, b"]") {
        Role::Close
    } else if is(token, b":") {
        Role::Middle
    } else {
        Role::Bound
    }
}

fn value_role(series: Series, depth: usize, token: Spelled<'_>) -> Option<Role>
    ensures { result ≡ spec.value_role series depth (seen token.entry) }
{
    if series.are_ports() {
        None
    } else {
        Some(term_role(series, depth, token))
    }
}

fn term_role(series: Series, depth: usize, token: Spelled<'_>) -> Role
    ensures { result ≡ spec.term_role series depth (seen token.entry) }
{
    if depth == 0 && (is(token, b",") || series.ends(token)) {
        Role::End
    } else {
        Role::Term
    }
}

fn item_role(own: bool, token: Spelled<'_>) -> Option<Role>
    ensures { result ≡ spec.item_role own (seen token.entry) }
{
    if is_direction(token) {
        Some(Role::Direction)
    } else if own && is_parameter(token) {
        Some(Role::Keyword)
    } else {
        None
    }
}

/// Nothing where a mark comes here.
fn expected(comes: bool) -> Option<Role>
    ensures { result ≡ spec.expected comes }
{
    if comes { None } else { Some(Role::Unexpected) }
}

//! What a text defines.

ghost use Rattle.std.specs.Prelude.{◌≡◌, List, ℕ};
ghost use Rattle.netlist_trim.specs.Shown.{seen};
ghost use Rattle.netlist_trim.specs.Reads.{ReadsAll, ReadsBody, ReadsDefinition};
ghost use Rattle.netlist_trim.specs.declared.fault.TrimErr.TheVariants.{Refused};
ghost use Rattle.netlist_trim.specs.declared.fault.TrimFault.TheVariants.{Open};

use crate::fault::{TrimErr, TrimFault};
use crate::names::Names;
use crate::reader::Reader;
use crate::spelled::Spelled;
use std::alloc::Global;
use std::marker::Model;

/// A module or a primitive: its name, its bytes in the text, and the names that its items begin with.
#[derive(Drop)]
pub struct Definition<'t> {
    name: &'t [u8],
    start: usize,
    end: usize,
    mentions: Names<'t>,
}

impl<'t> Model for Definition<'t> {
    ghost use Rattle.netlist_trim.specs.Definition.{Defined};

    ghost Value = { Defined };

    ghost view = { λ d. record { name = d.name.now; start = d.start; «end» = d.end; mentions = d.mentions } };
}

impl<'t> Definition<'t> {
    ghost use Rattle.std.specs.Prelude.{◌≡◌};

    /// Its name.
    pub fn name(&self) -> &'t [u8]
        ensures { result.now ≡ self.now.name }
    {
        self.name
    }

    /// The byte that it begins at.
    pub fn start(&self) -> usize
        ensures { result ≡ self.now.start }
    {
        self.start
    }

    /// The byte after its last.
    pub fn end(&self) -> usize
        ensures { result ≡ self.now.«end» }
    {
        self.end
    }

    /// The names that it mentions.
    pub fn mentions(&self) -> &Names<'t>
        ensures { result.now ≡ self.now.mentions }
    {
        &self.mentions
    }
}

/// All definitions of the tokens that are left, in order.
pub fn read_definitions<'t>(
    alloc: Global,
    tokens: &mut Reader<'t>,
) -> Result<Vec<Definition<'t>>, TrimErr>
    ensures { ReadsAll tokens.old result }
{
    let mut found = Vec::new(alloc);
    'definitions: while let Some(opening) = tokens.next_opening()? {
        found.push(read_definition(alloc, tokens, opening)?)?;
    }
    Ok(found)
}

/// A definition, after the word that opens it.
fn read_definition<'t>(
    alloc: Global,
    tokens: &mut Reader<'t>,
    opening: Spelled<'t>,
) -> Result<Definition<'t>, TrimErr>
    ensures { ReadsDefinition (seen opening.entry) tokens.old result tokens.new }
{
    let Some(name) = tokens.next()? else {
        return Err(open_at(opening.start()));
    };
    let mut mentions = Names::new(alloc);
    let end = read_body(tokens, opening, name, &mut mentions)?;
    Ok(Definition {
        name: name.name(),
        start: opening.start(),
        end,
        mentions,
    })
}

/// What stands within a definition, with the word that closes it: where that ends. Puts down which names are mentioned.
fn read_body<'t>(
    tokens: &mut Reader<'t>,
    opening: Spelled<'t>,
    name: Spelled<'t>,
    mentions: &mut Names<'t>,
) -> Result<usize, TrimErr>
    ensures { ReadsBody (seen opening.entry) (seen name.entry) tokens.old result mentions.old mentions.new tokens.new }
{
    let mut before = opening;
    let mut last = name;
    'tokens: while let Some(token) = tokens.next()? {
        if token.closes(opening) {
            return Ok(token.end());
        }
        if last.ends_item(before) && token.is_name() {
            mentions.push(token.name())?;
        }
        before = last;
        last = token;
    }
    Err(open_at(opening.start()))
}

/// The definition that begins here isn't closed.
fn open_at(at: usize) -> TrimErr
    ensures { result ≡ Refused (Open at) }
{
    TrimErr::Refused(TrimFault::Open { at })
}

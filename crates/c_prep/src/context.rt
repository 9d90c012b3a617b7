//! What directives change: the macros, the headers that were included, and the open conditionals.

ghost use Rattle.std.specs.Prelude.{◌≡◌, ◌≤◌, ◌+◌, IfErr, IfOk, OnOk};
ghost use Rattle.std.specs.Option.{option_map, is_some};
ghost use Rattle.c_prep.specs.declared.fault.PrepFault.TheVariants.{Memory};
ghost use Rattle.c_prep.specs.Macros.{kinds};
ghost use Rattle.c_prep.specs.Lines.{is_taken, is_paren, paren_at, clashes, defined, unless_more, after_else, after_endif, after_if, included_tokens, header_acts, obeyed, directed, first_state};
ghost use Rattle.c_prep.specs.Outcome.{Fails};

use crate::conditional::Open;
use crate::directive::ReadDirective;
use crate::fault::PrepFault;
use crate::output::Output;
use crate::same::{agrees, same_kinds};
use crate::table::Table;
use c_syntax::{Header, Included, Kind, Mark, Raw, RawKind, Token, header_tokens};
use std::alloc::{AllocError, Global};
use std::collections::VecDeque;

/// What directives change.
#[derive(Drop)]
pub struct Context<'t> {
    pub table: Table<'t>,
    pub included: Included,
    /// The innermost first.
    pub opens: VecDeque<Open>,
}

ghost use Rattle.c_prep.specs.Views.{macros_of, size_of, state_of, directive_of, Reads, ReadsState, acts_of, Adds};

// Whether a token is `(`.
fn is_paren(kind: &RawKind) -> bool
    ensures { result ≡ is_paren kind.now }
{
    match kind {
        RawKind::Plain(Kind::Mark(Mark::LParen)) => true,
        _ => false,
    }
}

// The place of a `(` that follows a name at once.
fn paren_at(tokens: &[Raw]) -> Option<u32>
    ensures { result ≡ paren_at tokens.now }
{
    match tokens {
        [raw, ..] if is_paren(&raw.kind) && raw.close => Some(raw.pos),
        _ => None,
    }
}

// Whether a name is kept with other tokens.
fn clashes(table: &Table<'_>, name: &[u8], tokens: &[Raw]) -> bool
    ensures { result ≡ clashes name.now (kinds tokens.now) (macros_of table.now) }
{
    match table.get(name) {
        Some(body) => !same_kinds(body, tokens),
        None => false,
    }
}

// Keeps tokens under a name.
#[tactic(auto, unfolding(crate::specs::Lines::defined))]
fn define<'t>(
    table: &mut Table<'t>,
    name: &'t [u8],
    pos: u32,
    tokens: &'t [Raw],
) -> Result<(), PrepFault>
    ensures macros { Reads result (defined name.now pos tokens.now (macros_of table.old)) (macros_of table.new) }
    ensures size { OnOk result (size_of table.new ≤ size_of table.old + 1) }
{
    if clashes(table, name, tokens) {
        return Err(PrepFault::BadDirective(pos));
    }
    if let Some(paren) = paren_at(tokens) {
        return Err(PrepFault::BadDirective(paren));
    }
    table.keep(name, tokens)?;
    Ok(())
}

/// Whether the current part is taken.
pub fn is_taken(opens: &VecDeque<Open>) -> bool
    ensures { result ≡ is_taken opens.now.items }
{
    match opens.get(0) {
        Some(open) => open.outer && open.holds,
        None => true,
    }
}

// Opens a conditional.
fn open(
    opens: &mut VecDeque<Open>,
    at: u32,
    wanted: bool,
    body: Option<&[Raw]>,
) -> Result<(), AllocError>
    ensures { OnOk result (opens.new.items ≡ after_if at wanted (option_map (λ b. kinds b.now) body.entry) opens.old.items) }
{
    let open = Open {
        pos: at,
        outer: is_taken(opens),
        holds: agrees(wanted, body.is_some()),
        turned: false,
    };
    opens.push_front(open)?;
    Ok(())
}

// Goes on to the part behind `#else`.
#[tactic(auto, unfolding(crate::specs::Lines::after_else))]
fn turn(opens: &mut VecDeque<Open>, at: u32, more: Option<u32>) -> Result<(), PrepFault>
    ensures { Reads result (after_else at more opens.old.items) opens.new.items }
{
    let Some(open) = opens.pop_front() else {
        return Err(PrepFault::Unbalanced(at));
    };
    if open.turned {
        return Err(PrepFault::Unbalanced(at));
    }
    if let Some(pos) = more {
        return Err(PrepFault::BadDirective(pos));
    }
    opens.push_front(Open {
        pos: open.pos,
        outer: open.outer,
        holds: !open.holds,
        turned: true,
    })?;
    Ok(())
}

// Closes a conditional.
#[tactic(auto, unfolding(crate::specs::Lines::after_endif))]
fn close(opens: &mut VecDeque<Open>, at: u32, more: Option<u32>) -> Result<(), PrepFault>
    ensures { Reads result (after_endif at more opens.old.items) opens.new.items }
{
    if opens.pop_front().is_none() {
        return Err(PrepFault::Unbalanced(at));
    }
    match more {
        Some(pos) => Err(PrepFault::BadDirective(pos)),
        None => Ok(()),
    }
}

// The tokens of a header that wasn't included before.
fn included_tokens(
    alloc: Global,
    included: Included,
    header: Header,
    at: u32,
) -> Result<VecDeque<Token>, AllocError>
    ensures { IfOk result (λ v. v.items ≡ included_tokens included header at) }
{
    if included.has(header) {
        return Ok(VecDeque::new(alloc));
    }
    header_tokens(alloc, header, at)
}

// Gives the tokens of a header, unless it was included before.
fn include(
    alloc: Global,
    included: Included,
    out: &mut Output,
    header: Header,
    at: u32,
) -> Result<(), AllocError>
    ensures { OnOk result (Adds out.old out.new (header_acts included header at)) }
{
    let mut tokens = included_tokens(alloc, included, header, at)?;
    while let Some(token) = tokens.pop_front() {
        out.put_token(token)?;
    }
    Ok(())
}

impl<'t> Context<'t> {
    /// Before the first line.
    pub fn new(alloc: Global) -> Context<'t>
        ensures state { state_of result ≡ first_state }
        ensures size { size_of result.table ≡ 0 }
    {
        Context {
            table: Table::new(alloc),
            included: Included::none(),
            opens: VecDeque::new(alloc),
        }
    }

    /// Does what a directive says whose `#` stands at a place.
    pub fn obey(
        &mut self,
        alloc: Global,
        out: &mut Output,
        at: u32,
        directive: ReadDirective<'t>,
    ) -> Result<(), PrepFault>
        ensures state { ReadsState result (obeyed (state_of self.old) at (directive_of directive.entry)) (state_of self.new) }
        ensures acts { OnOk result (Adds out.old out.new (acts_of (obeyed (state_of self.old) at (directive_of directive.entry)))) }
        ensures size { OnOk result (size_of self.new.table ≤ size_of self.old.table + 1) }
    {
        match directive {
            ReadDirective::Empty => Ok(()),
            ReadDirective::Define { name, pos, tokens } => {
                define(&mut self.table, name, pos, tokens)
            }
            ReadDirective::Undef(name) => {
                self.table.remove(name);
                Ok(())
            }
            ReadDirective::If { name, wanted } => {
                let body = self.table.get(name);
                open(&mut self.opens, at, wanted, body)?;
                Ok(())
            }
            ReadDirective::Turn(more) => turn(&mut self.opens, at, more),
            ReadDirective::Close(more) => close(&mut self.opens, at, more),
            ReadDirective::Include(header) => {
                include(alloc, self.included, out, header, at)?;
                self.included = self.included.with_header(header);
                Ok(())
            }
        }
    }
}

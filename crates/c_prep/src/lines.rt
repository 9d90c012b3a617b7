//! Lines of tokens.

ghost use Rattle.std.specs.Prelude.{◌≡◌, ℕ, ◌+◌, ◌<◌, ◌≤◌, ◌∷◌, List, length, not, true, OnOk};
ghost use Rattle.std.specs.List.{prefix_len};
ghost use Rattle.c_prep.specs.Macros.{Act};
ghost use Rattle.c_prep.specs.Lines.{lines, text_acts, directed, line_step, acts_in, first_state, is_taken, is_hash, left_open};
ghost use Rattle.c_prep.specs.Directives.{directive_at};
ghost use Rattle.c_prep.specs.Views.{macros_of, size_of, state_of, ReadsState, acts_of, Adds, Follows, ReadsActs};

use crate::conditional::Open;
use crate::context::{Context, is_taken};
use crate::directive::directive_at;
use crate::expand::expand;
use crate::fault::PrepFault;
use crate::output::Output;
use crate::table::Table;
use c_syntax::{Raw, RawKind};
use std::alloc::{AllocError, Global};
use std::collections::VecDeque;

// How many tokens before the next line stand at the front.
fn line_len(raws: &[Raw]) -> usize
    ensures value { result ≡ prefix_len (λ r. not r.first) raws.now }
    ensures within { result ≤ length raws.now }
{
    raws.iter().take_while(|r| !r.first).count()
}

// Gives what the tokens of a line stand for.
fn give_line<'t>(
    alloc: Global,
    table: &mut Table<'t>,
    out: &mut Output,
    line: &'t [Raw],
) -> Result<(), AllocError>
    ensures macros { OnOk result (macros_of table.new ≡ macros_of table.old) }
    ensures size { OnOk result (size_of table.new ≤ size_of table.old) }
    ensures acts { OnOk result ((most : ℕ) → size_of table.old ≤ most → Adds out.old out.new (text_acts most true (macros_of table.old) line.now)) }
{
    let mut rest = line;
    while let [raw, more @ ..] = rest {
        expand(alloc, table, out, raw)?;
        rest = more;
    }
    Ok(())
}

// Reads a line of text.
fn read_text<'t>(
    alloc: Global,
    context: &mut Context<'t>,
    out: &mut Output,
    line: &'t [Raw],
) -> Result<(), AllocError>
    ensures state { OnOk result (state_of context.new ≡ state_of context.old) }
    ensures size { OnOk result (size_of context.new.table ≤ size_of context.old.table) }
    ensures acts { OnOk result ((most : ℕ) → size_of context.old.table ≤ most → Adds out.old out.new (text_acts most (is_taken context.old.opens.items) (macros_of context.old.table) line.now)) }
{
    if is_taken(&context.opens) {
        give_line(alloc, &mut context.table, out, line)?;
    }
    Ok(())
}

// Reads a line of a directive, by what stands behind its `#`.
fn read_directive<'t>(
    alloc: Global,
    context: &mut Context<'t>,
    out: &mut Output,
    at: u32,
    args: &'t [Raw],
) -> Result<(), PrepFault>
    ensures state { ReadsState result (directed (state_of context.old) at (directive_at (is_taken context.old.opens.items) at args.now)) (state_of context.new) }
    ensures acts { OnOk result (Adds out.old out.new (acts_of (directed (state_of context.old) at (directive_at (is_taken context.old.opens.items) at args.now)))) }
    ensures size { OnOk result (size_of context.new.table ≤ size_of context.old.table + 1) }
{
    match directive_at(is_taken(&context.opens), at, args) {
        Ok(directive) => context.obey(alloc, out, at, directive),
        Err(pos) => Err(PrepFault::BadDirective(pos)),
    }
}

// Whether a token is `#`.
fn is_hash(kind: &RawKind) -> bool
    ensures { result ≡ is_hash kind.now }
{
    match kind {
        RawKind::Hash => true,
        _ => false,
    }
}

// Reads a line that begins with a token.
fn read_line<'t>(
    alloc: Global,
    context: &mut Context<'t>,
    out: &mut Output,
    line: &'t [Raw],
) -> Result<(), PrepFault>
    ensures state { (most : ℕ) → size_of context.old.table ≤ most → ReadsState result (line_step most (state_of context.old) line.now) (state_of context.new) }
    ensures acts { (most : ℕ) → size_of context.old.table ≤ most → OnOk result (Adds out.old out.new (acts_of (line_step most (state_of context.old) line.now))) }
    ensures size { OnOk result (size_of context.new.table ≤ size_of context.old.table + 1) }
{
    let [first, args @ ..] = line else {
        return Ok(());
    };
    if is_hash(&first.kind) {
        return read_directive(alloc, context, out, first.pos, args);
    }
    read_text(alloc, context, out, line)?;
    Ok(())
}

// The place of the first conditional that is left open.
fn left_open(opens: &VecDeque<Open>) -> Option<u32>
    ensures { result ≡ left_open opens.now.items }
{
    match opens.back() {
        Some(open) => Some(open.pos),
        None => None,
    }
}

/// Reads the lines of a text.
pub fn read_lines(alloc: Global, raws: &[Raw]) -> Result<Output, PrepFault>
    ensures { ReadsActs result (acts_in (length raws.now) first_state (lines raws.now)) }
{
    let mut context = Context::new(alloc);
    let mut out = Output::new(alloc);
    let mut rest = raws;
    while let [_, behind @ ..] = rest {
        let (line, next) = rest.split_at(1 + line_len(behind));
        read_line(alloc, &mut context, &mut out, line)?;
        rest = next;
    }
    match left_open(&context.opens) {
        Some(pos) => Err(PrepFault::Unbalanced(pos)),
        None => Ok(out),
    }
}

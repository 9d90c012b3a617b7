// The names of a module's exports.
ghost use Rattle.std.specs.Prelude.{◌≡◌, ◌≢◌, AllPairs, IfOk, MatchBool};
ghost use Rattle.wasm_valid.specs.Rules.{HaveDistinctNames};

use indexmap::IndexSet;
use std::alloc::{AllocError, Global};
use wasm_bin::Export;

/// Whether no two exports have one name.
pub fn have_distinct_names(alloc: Global, exports: &[Export]) -> Result<bool, AllocError>
    ensures { IfOk result (λ yes. MatchBool yes (HaveDistinctNames exports.now) (HaveDistinctNames exports.now → ⊥)) }
{
    let mut names: IndexSet<&[u8]> = IndexSet::new(alloc);
    for export in exports {
        if !names.insert(export.name.as_slice())? {
            return Ok(false);
        }
    }
    Ok(true)
}

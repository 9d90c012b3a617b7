// The entry of a function.

ghost use Rattle.std.specs.Prelude.{◌≡◌, ◌<◌, length};
ghost use Rattle.c_types.specs.Types.{CType};
ghost use Rattle.c_types.specs.Table.{known, HasType};
ghost use Rattle.c_resolved.specs.Resolved.{kind_of};

use c_kinds::kind;
use c_plain::Entry;
use c_types::Types;

/// The entry of a function whose code begins at a place, which has so many parameters, gives a result of a type, and
/// whose calls have such a charge.
pub fn entry(types: &Types<'_>, at: u32, params: u32, gives: usize, charge: u32) -> Entry
    requires { gives < length (known types.now) }
    ensures at { result.at ≡ at }
    ensures params { result.params ≡ params }
    ensures result { (t : CType) → HasType types.now gives t → result.result ≡ kind_of t }
    ensures charge { result.charge ≡ charge }
{
    Entry {
        at,
        params,
        result: kind(types, gives),
        charge,
    }
}

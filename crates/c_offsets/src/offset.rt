// Members.

ghost use Rattle.std.specs.Prelude.{◌≡◌, ◌<◌, ◌^◌, ℕ, List, Option, slice_get};
ghost use Rattle.std.specs.Str.{bytes_eq};
ghost use Rattle.std.specs.Option.{option_map};
ghost use Rattle.c_types.specs.Types.{CType, Tags, Layout as Members};
ghost use Rattle.c_eval.specs.Environment.{words_before, offset_in, member_offset};
ghost use Rattle.c_types.specs.Seen.{Counts};
ghost use Rattle.c_types.specs.Table.{Table, known, HasType};
ghost use Rattle.c_layouts.specs.Layouts.{AreLayouts, LayoutAt};
ghost use Rattle.c_declared.specs.Slots.{AreListed, AreOrdered, IsListed};
ghost use Rattle.c_offsets.specs.Offsets.{IsTypeAmong, IsTag};

use c_layouts::{Layout, tag_of, words};
use c_types::{Types, Words};
use ordered::OrderedMap;

// Whether a member has a name, and the number of its type.
fn member_at(members: &OrderedMap<&[u8], usize>, k: usize, name: &[u8]) -> Option<(bool, usize)>
    ensures { result ≡ option_map (λ e. (bytes_eq name.now e.0.now, e.1)) (slice_get members.now.entries k) }
{
    match members.get_index(k) {
        Some((member, ty)) => Some((name == *member, *ty)),
        None => None,
    }
}

// How many words the members take before the one of a name.
fn words_before(
    types: &Types<'_>,
    layouts: &[Layout<'_>],
    members: &OrderedMap<&[u8], usize>,
    name: &[u8],
) -> Words
    requires { (all : List (List ℕ × CType)) × AreListed (known types.now) members.now.entries all }
    ensures { (all : List (List ℕ × CType)) (tags : Tags) → AreListed (known types.now) members.now.entries all → AreLayouts types.now layouts.now tags → Counts result (words_before tags all name.now) }
{
    let mut sum = Words::of(0);
    for k in 0..members.len() {
        match member_at(members, k, name) {
            Some((found, ty)) => {
                if found {
                    return sum;
                }
                sum = sum.plus(words(types, layouts, ty));
            }
            None => return sum,
        }
    }
    sum
}

// How many words of a struct with a tag stand before a member.
fn offset_in(types: &Types<'_>, layouts: &[Layout<'_>], tag: usize, name: &[u8]) -> Words
    requires { (o : Option Members) × (tags : Tags) × IsTag types.now layouts.now tag o tags }
    ensures { (o : Option Members) (tags : Tags) → IsTag types.now layouts.now tag o tags → Counts result (offset_in tags name.now o) }
{
    match layouts.get(tag) {
        Some(Layout::Members(members, _)) => words_before(types, layouts, members, name),
        _ => Words::of(0),
    }
}

/// How many words of a struct stand before a member.
pub fn member_words(types: &Types<'_>, layouts: &[Layout<'_>], ty: usize, name: &[u8]) -> Words
    requires { (t : CType) × (tags : Tags) × IsTypeAmong types.now layouts.now ty t tags }
    ensures { (t : CType) (tags : Tags) → IsTypeAmong types.now layouts.now ty t tags → Counts result (member_offset tags t name.now) }
{
    match tag_of(types.shape(ty)) {
        Some(tag) => offset_in(types, layouts, tag, name),
        None => Words::of(0),
    }
}

/// How many words of a struct stand before a member, where these are fewer than 2^24.
pub fn member_offset(types: &Types<'_>, layouts: &[Layout<'_>], ty: usize, name: &[u8]) -> u32
    requires { (t : CType) × (tags : Tags) × IsTypeAmong types.now layouts.now ty t tags }
    ensures { (t : CType) (tags : Tags) → IsTypeAmong types.now layouts.now ty t tags → member_offset tags t name.now < 2 ^ 24 → result ≡ member_offset tags t name.now }
{
    member_words(types, layouts, ty, name).low().get()
}

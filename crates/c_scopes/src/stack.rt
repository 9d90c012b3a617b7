// The declarations in scope as a stack, beside a map from each name to the declaration that counts.

ghost use Rattle.std.specs.Prelude.{◌≡◌, ◌≤◌, ◌-◌, take, OnOk, OnErr, vec_len};
ghost use Rattle.c_scopes.specs.Stack.{looked, Stands, IsPushed};

use crate::entity::Entity;
use ordered::OrderedMap;
use std::alloc::AllocError;

// What a name stands for, and how many declarations are before its own.
#[derive(Clone, Copy)]
pub struct Place {
    pub entity: Entity,
    pub index: usize,
}

// A declaration, and what its name stood for before.
#[derive(Clone, Copy)]
pub struct Declared<'t> {
    pub name: &'t [u8],
    pub entity: Entity,
    pub hidden: Option<Place>,
}

// The place of a name.
pub fn place_of(latest: &OrderedMap<&[u8], Option<Place>>, name: &[u8]) -> Option<Place>
    ensures { result ≡ looked latest.now.entries name.now }
{
    match latest.get(&name) {
        Some(place) => *place,
        None => None,
    }
}

// A declaration more. An `Err` changes nothing.
pub fn push<'t>(
    declared: &mut Vec<Declared<'t>>,
    latest: &mut OrderedMap<&'t [u8], Option<Place>>,
    name: &'t [u8],
    entity: Entity,
) -> Result<(), AllocError>
    ensures pushed { OnOk result (IsPushed declared.old.items declared.new.items (name.now, entity)) }
    ensures err { OnErr result (declared.new.items ≡ declared.old.items) }
    ensures stands { Stands declared.old.items latest.old.entries → Stands declared.new.items latest.new.entries }
{
    let hidden = place_of(latest, name);
    let index = declared.len();
    declared.push(Declared {
        name,
        entity,
        hidden,
    })?;
    match latest.insert(name, Some(Place { entity, index })) {
        Ok(_) => Ok(()),
        Err(failed) => {
            declared.truncate(index);
            Err(failed)
        }
    }
}

// The last declaration goes. An `Err` changes nothing.
pub fn pop<'t>(
    declared: &mut Vec<Declared<'t>>,
    latest: &mut OrderedMap<&'t [u8], Option<Place>>,
) -> Result<(), AllocError>
    ensures front { OnOk result (declared.new.items ≡ take (vec_len declared.old - 1) declared.old.items) }
    ensures err { OnErr result (declared.new.items ≡ declared.old.items) }
    ensures stands { Stands declared.old.items latest.old.entries → Stands declared.new.items latest.new.entries }
{
    let Some(last) = declared.last().copied() else {
        return Ok(());
    };
    latest.insert(last.name, last.hidden)?;
    declared.truncate(declared.len() - 1);
    Ok(())
}

// The first declarations stay alone. An `Err` leaves some of the others.
pub fn keep<'t>(
    declared: &mut Vec<Declared<'t>>,
    latest: &mut OrderedMap<&'t [u8], Option<Place>>,
    count: usize,
) -> Result<(), AllocError>
    requires { count ≤ vec_len declared.old }
    ensures front { OnOk result (declared.new.items ≡ take count declared.old.items) }
    ensures least { count ≤ vec_len declared.new }
    ensures stands { Stands declared.old.items latest.old.entries → Stands declared.new.items latest.new.entries }
{
    while declared.len() > count {
        pop(declared, latest)?;
    }
    Ok(())
}

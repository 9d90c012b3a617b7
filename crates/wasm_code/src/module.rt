// The module of a program.
ghost use Rattle.std.specs.Prelude.{◌≡◌, ◌^◌, ◌≤◌, ◌∷◌, [], length, IfOk};
ghost use Rattle.wasm_rule.specs.Step.{getchar_name, putchar_name};
ghost use Rattle.wasm_code.specs.Emitted.{host_import, main_code, main_export, module_for};

use crate::body::main_code;
use crate::data::segments_for;
use eir_core::Program;
use std::alloc::{AllocError, Global};
use wasm_bin::{Body, Export, FuncType, Import, Limits, Module};
use wasm_bytes::items::Items;

/// How many pages the memory has: 2^24 words of four bytes.
const PAGES: u32 = 1024;

/// The locals: six registers, and the number of the block that a jump goes to.
const LOCALS: u32 = 7;

/// The types of `main`, of `getchar` and of `putchar`.
const TYPES: [FuncType; 3] = [
    FuncType {
        params: 0,
        results: 0,
    },
    FuncType {
        params: 0,
        results: 1,
    },
    FuncType {
        params: 1,
        results: 0,
    },
];

// A function of the host, of this name and type.
fn host_import(alloc: Global, name: &[u8], kind: u32) -> Result<Import, AllocError>
    ensures { IfOk result (λ import. import ≡ host_import name.now kind) }
{
    Ok(Import {
        module: Items::of(b"env".to_vec(alloc)?),
        name: Items::of(name.to_vec(alloc)?),
        kind,
    })
}

// The functions of the host.
fn imports(alloc: Global) -> Result<Vec<Import>, AllocError>
    ensures { IfOk result (λ imports. imports.items ≡ host_import getchar_name 1 ∷ host_import putchar_name 2 ∷ []) }
{
    let mut imports = Vec::with_capacity(alloc, 2)?;
    imports.push(host_import(alloc, b"getchar", 1)?)?;
    imports.push(host_import(alloc, b"putchar", 2)?)?;
    Ok(imports)
}

// `main`, behind the functions of the host.
fn exports(alloc: Global) -> Result<Vec<Export>, AllocError>
    ensures { IfOk result (λ exports. exports.items ≡ main_export ∷ []) }
{
    let name = Items::of(b"main".to_vec(alloc)?);
    let mut exports = Vec::with_capacity(alloc, 1)?;
    exports.push(Export {
        name,
        sort: 0,
        index: 2,
    })?;
    Ok(exports)
}

// The body of `main`.
fn bodies(alloc: Global, p: &Program) -> Result<Vec<Body>, AllocError>
    ensures { IfOk result (λ bodies. bodies.items ≡ record { locals = 7; code = main_code p.now } ∷ []) }
{
    let code = Items::of(main_code(alloc, p)?);
    let mut bodies = Vec::with_capacity(alloc, 1)?;
    bodies.push(Body {
        locals: LOCALS,
        code,
    })?;
    Ok(bodies)
}

/// The module that does what a program does. It takes memory in proportion to the program's size.
pub fn module_for(alloc: Global, p: &Program) -> Result<Module, AllocError>
    ensures { IfOk result (λ m. m ≡ module_for p.now) }
{
    Ok(Module {
        types: Items::of(TYPES.to_vec(alloc)?),
        imports: Items::of(imports(alloc)?),
        funcs: Items::of([0].to_vec(alloc)?),
        memory: Some(Limits {
            min: PAGES,
            max: Some(PAGES),
        }),
        globals: Items::of(Vec::new(alloc)),
        exports: Items::of(exports(alloc)?),
        start: None,
        bodies: Items::of(bodies(alloc, p)?),
        segments: Items::of(segments_for(alloc, p.words())?),
    })
}

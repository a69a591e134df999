//! Loading a project file.

ghost use Rattle.std.specs.Prelude.{◌≡◌, ◌<◌, ◌^◌, ℕ, List, length, map, IfOk};
ghost use Rattle.std.specs.List.{All, sum_by};
ghost use Rattle.target_records.specs.Records.{records_in};
ghost use Rattle.name_resolving.specs.Room.{HasRoom};
ghost use Rattle.project_check.specs.Kept.{CachesAll};
ghost use Rattle.target_records.specs.Costumes.{IsDressed};
ghost use Rattle.project_check.specs.Measured.{IsRead};
ghost use Rattle.project_check.specs.Loaded.{Loads, Resolves, of_json, of_fault};

use crate::file::read_file;
use crate::hats::all_hats;
use crate::heads::all_heads;
use crate::project::Project;
use crate::sizes::measure;
use block_checks::{BlockLinks, test_blocks};
use block_table::BlockTable;
use cached_blocks::{CachedBlocks, cache_blocks};
use json_shapes::Fault;
use name_resolving::{ResolvedNames, resolve};
use project_json::{JsonRefusal, read};
use project_spec::Refusal;
use std::alloc::{AllocError, Global};
use target_records::Records;

fn of_json(refusal: JsonRefusal) -> Refusal
    ensures { result ≡ of_json refusal }
{
    match refusal {
        JsonRefusal::NotUtf8 { at } => Refusal::Json(JsonRefusal::NotUtf8 { at }),
        JsonRefusal::Syntax { at } => Refusal::Json(JsonRefusal::Syntax { at }),
        JsonRefusal::TooDeep { at } => Refusal::Json(JsonRefusal::TooDeep { at }),
        JsonRefusal::NoMemory => Refusal::NoMemory,
    }
}

fn of_fault(fault: Fault) -> Refusal
    ensures { result ≡ of_fault fault }
{
    match fault {
        Fault::Shape { path } => Refusal::Shape { path },
        Fault::NoMemory => Refusal::NoMemory,
    }
}

// How many blocks there are.
fn count(tables: &[BlockTable]) -> u32
    requires { sum_by (λ t. length t.blocks) tables.now < 2 ^ 32 }
    ensures { result ≡ sum_by (λ t. length t.blocks) tables.now }
{
    let mut total = 0;
    for table in tables {
        total += table.len();
    }
    total
}

// Which blocks of each target are checked.
fn flags<'a>(alloc: Global, links: &'a [BlockLinks]) -> Result<Vec<&'a [bool]>, AllocError>
    ensures { IfOk result (λ v. map (λ f. f.now) v.items ≡ map (λ l. l.checked) links.now) }
{
    let mut flags = Vec::new(alloc);
    for kept in links {
        flags.push(kept.checked())?;
    }
    Ok(flags)
}

// What the blocks of all targets name, where checked blocks are flagged.
fn names(
    alloc: Global,
    records: &mut Records,
    tables: &[BlockTable],
    links: &[BlockLinks],
) -> Result<ResolvedNames, AllocError>
    requires targets { length (records_in records.old).targets ≡ length tables.now }
    requires room { HasRoom (records_in records.old) (map (λ t. t.blocks) tables.now) }
    ensures { IfOk result (λ names. Resolves links.now (map (λ t. t.blocks) tables.now) (records_in records.old) (records_in records.new) names) }
{
    let checked = flags(alloc, links)?;
    resolve(alloc, records, tables, &checked)
}

// The blocks of each target as executions need them.
fn cache_all(
    alloc: Global,
    tables: &[BlockTable],
    names: &ResolvedNames,
) -> Result<Vec<CachedBlocks>, AllocError>
    requires { length names.now ≡ length tables.now }
    ensures { IfOk result (λ v. CachesAll (map (λ t. t.blocks) tables.now) names.now v.items) }
{
    let mut cached = Vec::new(alloc);
    for (t, table) in tables.iter().enumerate() {
        let refs = names.as_slice()[t].as_slice();
        cached.push(cache_blocks(alloc, table.blocks(), refs)?)?;
    }
    Ok(cached)
}

// The project of records and blocks that were read, in which nothing is too many.
fn linked(alloc: Global, mut records: Records, tables: Vec<BlockTable>) -> Result<Project, Refusal>
    requires targets { length (records_in records).targets ≡ length tables.items }
    requires dressed { All IsDressed (records_in records).targets }
    requires few { length tables.items < 2 ^ 32 }
    requires room { HasRoom (records_in records) (map (λ t. t.blocks) tables.items) }
    requires count { sum_by (λ t. length t.blocks) tables.items < 2 ^ 32 }
    requires source { (bytes : List ℕ) × IsRead bytes (records_in records) tables.items }
    ensures { (bytes : List ℕ) → IsRead bytes (records_in records) tables.items → Loads bytes result }
{
    let links = match test_blocks(alloc, &tables) {
        Ok(links) => links,
        Err(refusal) => return Err(refusal),
    };
    let names = names(alloc, &mut records, &tables, &links)?;
    let cached = cache_all(alloc, &tables, &names)?;
    let heads = all_heads(alloc, &tables)?;
    let hats = all_hats(alloc, &tables, &heads)?;
    let blocks = count(&tables);
    Ok(Project {
        records,
        tables,
        links,
        names,
        cached,
        heads,
        hats,
        blocks,
    })
}

/// The project that the bytes of a file tell, or why it is refused, by the first fault in this order: P1 a JSON text, P2
/// shapes, P3 one stage, P4 counts and lengths, P11 mutations, P6 links that name blocks, P7 cycles, P5 opcodes in their
/// places, P8 required inputs, P9 fields, P10 nesting of reporters. docs/refusals.md has an example of each.
pub fn load(alloc: Global, bytes: &[u8]) -> Result<Project, Refusal>
    requires { length bytes.now < 2 ^ 32 }
    ensures { Loads bytes.now result }
{
    let document = match read(alloc, bytes) {
        Ok(document) => document,
        Err(refusal) => return Err(of_json(refusal)),
    };
    let file = match read_file(alloc, &document) {
        Ok(file) => file,
        Err(fault) => return Err(of_fault(fault)),
    };
    match measure(alloc, file) {
        Ok(measured) => linked(alloc, measured.records, measured.tables),
        Err(refusal) => Err(refusal),
    }
}

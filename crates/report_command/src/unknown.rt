//! The blocks in scripts of a project that is refused whose opcodes the player does not know.

ghost use Rattle.std.specs.Prelude.{◌≡◌, ◌≤◌, ◌++◌, ◌∷◌, [], if◌then◌else◌, length, flat_map, take, bytes_eq, IfOk, OnOk};
ghost use Rattle.std.specs.Fmt.{decimal};
ghost use Rattle.std.specs.Option.{option_map};
ghost use Rattle.machine_spec.specs.FrameText.{quoted};
ghost use Rattle.std.specs.List.{count_by, list_any};
ghost use Rattle.project_json.specs.View.{tree};
ghost use Rattle.block_table.specs.Table.{IsSmall, table_at};
ghost use Rattle.project_spec.specs.Linked.{is_menu};
ghost use Rattle.report_command.specs.Lines.{line};
ghost use Rattle.report_command.specs.Unknown.{place, readable, unknown_name, unknown_of, unknown_names, blocks_of, tables_in, AreUnknown, firsts, most_told, unknown_line, unknown_text};
ghost use Rattle.report_command.specs.UnknownStages.{IsTable, AddsUnknown, IsSmallTarget, IsSmallDocument};

use crate::pieces::{push_natural, push_text};
use crate::places::targets_in;
use block_checks::{in_scripts, is_menu};
use block_table::{BlockRefusal, BlockTable, build};
use project_json::{Json, Text, Texts, member};
use project_spec::{Block, Code};
use quoted_text::push_quoted;
use std::alloc::{AllocError, Global};

/// At most so many names are told.
const MOST_TOLD: usize = 100;

// Appends the opcode of a block, where the block is not known.
fn push_name(names: &mut Texts, block: &Block) -> Result<(), AllocError>
    ensures { OnOk result (names.new ≡ names.old ++ unknown_name (is_menu block.now) block.now.code) }
{
    let menu = is_menu(block);
    match &block.code {
        Code::Known(_) => Ok(()),
        Code::Other(name) => push_other(names, menu, name),
    }
}

// Appends a name, unless it is that of a menu.
fn push_other(names: &mut Texts, menu: bool, name: &Text) -> Result<(), AllocError>
    ensures { OnOk result (names.new ≡ names.old ++ (if menu then [] else name.now ∷ [])) }
{
    if menu {
        return Ok(());
    }
    let copy = name.clone()?;
    names.push(copy)
}

// Appends the opcode of a block in a script, where the block is not known.
fn push_in_script(names: &mut Texts, in_script: bool, block: &Block) -> Result<(), AllocError>
    ensures { OnOk result (names.new ≡ names.old ++ unknown_of in_script block.now) }
{
    if in_script {
        push_name(names, block)
    } else {
        Ok(())
    }
}

// Appends the opcodes of the blocks in scripts that are not known.
fn push_names(names: &mut Texts, blocks: &[Block], flags: &[bool]) -> Result<(), AllocError>
    requires { length flags.now ≡ length blocks.now }
    ensures { OnOk result (names.new ≡ names.old ++ unknown_names blocks.now flags.now) }
{
    for k in 0..blocks.len() {
        push_in_script(names, flags[k], &blocks[k])?;
    }
    Ok(())
}

// The table of blocks that can be read.
fn read_blocks(alloc: Global, blocks: &Json) -> Result<Option<BlockTable>, AllocError>
    requires { IsSmall (tree blocks.now) }
    ensures { IfOk result (IsTable (readable (table_at place (tree blocks.now)))) }
{
    match build(alloc, blocks, &Text::new(alloc)) {
        Ok(table) => Ok(Some(table)),
        Err(BlockRefusal::NoMemory) => Err(AllocError),
        Err(BlockRefusal::Shape { .. }) => Ok(None),
        Err(BlockRefusal::TooLong { .. }) => Ok(None),
    }
}

// The table of a target whose blocks can be read.
fn target_table(alloc: Global, target: &Json) -> Result<Option<BlockTable>, AllocError>
    requires { IsSmallTarget (tree target.now) }
    ensures { IfOk result (IsTable (blocks_of (tree target.now))) }
{
    match member(target, "blocks") {
        Some(blocks) => read_blocks(alloc, blocks),
        None => Ok(None),
    }
}

// Appends the opcodes of the blocks in scripts of a table that are not known.
fn push_table(alloc: Global, names: &mut Texts, table: &BlockTable) -> Result<(), AllocError>
    ensures { OnOk result (AddsUnknown names.old table.now.blocks names.new) }
{
    let flags = in_scripts(alloc, table)?;
    push_names(names, table.blocks(), &flags)
}

// Appends the opcodes of the blocks in scripts of a target that are not known.
fn push_target(alloc: Global, names: &mut Texts, target: &Json) -> Result<(), AllocError>
    requires { IsSmallTarget (tree target.now) }
    ensures { OnOk result (AddsUnknown names.old (blocks_of (tree target.now)) names.new) }
{
    let table = target_table(alloc, target)?;
    match table {
        Some(table) => push_table(alloc, names, &table),
        None => Ok(()),
    }
}

/// The opcodes of the blocks in scripts of a project that are not known, one for each block, in the order of the file.
/// The only error is want of memory.
pub(crate) fn unknown_in(alloc: Global, document: Option<&Json>) -> Result<Texts, AllocError>
    requires { IsSmallDocument (option_map (λ j. tree j.now) document) }
    ensures { IfOk result (AreUnknown (tables_in (option_map (λ j. tree j.now) document.entry))) }
{
    let mut names = Texts::new(alloc);
    for target in targets_in(document) {
        push_target(alloc, &mut names, target)?;
    }
    Ok(names)
}

// Whether the name is among these.
fn has(names: &[Text], name: &str) -> bool
    ensures { result ≡ list_any (λ other. bytes_eq other name.now) names.now }
{
    names.iter().any(|other| other.as_str() == name)
}

// How often the name is among these.
fn count_of(names: &[Text], name: &str) -> usize
    ensures value { result ≡ count_by (λ other. bytes_eq other name.now) names.now }
    ensures within { result ≤ length names.now }
{
    let mut count = 0;
    for other in names {
        if other.as_str() == name {
            count += 1;
        }
    }
    count
}

// Appends a name that is not among these.
fn push_first(names: &mut Texts, name: &Text) -> Result<(), AllocError>
    ensures { OnOk result (names.new ≡ (if list_any (λ other. bytes_eq other name.now) names.old then names.old else names.old ++ name.now ∷ [])) }
{
    if has(names.as_slice(), name.as_str()) {
        return Ok(());
    }
    let copy = name.clone()?;
    names.push(copy)
}

// Each name once, in the order in which they come first, and no more than are told.
fn firsts(alloc: Global, names: &[Text]) -> Result<Texts, AllocError>
    ensures { IfOk result (λ v. v ≡ take most_told (firsts names.now)) }
{
    let mut seen = Texts::new(alloc);
    for name in names {
        if seen.len() == MOST_TOLD {
            return Ok(seen);
        }
        push_first(&mut seen, name)?;
    }
    Ok(seen)
}

// Appends a name, and how many blocks have it.
fn push_counted(out: &mut Vec<u8>, name: &str, count: usize) -> Result<(), AllocError>
    ensures { OnOk result (out.new.items ≡ out.old.items ++ (quoted name.now ++ 32 ∷ decimal count)) }
{
    push_quoted(out, name)?;
    push_text(out, " ")?;
    push_natural(out, count as u64)
}

// Appends a line that tells a name, and how many blocks have it.
fn push_name_line(
    out: &mut Vec<u8>,
    begin: &str,
    name: &str,
    count: usize,
) -> Result<(), AllocError>
    ensures { OnOk result (out.new.items ≡ out.old.items ++ line begin.now (quoted name.now ++ 32 ∷ decimal count)) }
{
    push_text(out, begin)?;
    push_counted(out, name, count)?;
    out.push(b'\n')?;
    Ok(())
}

// Appends the line of a name, with how many blocks have it.
fn push_line(out: &mut Vec<u8>, names: &[Text], name: &str) -> Result<(), AllocError>
    ensures { OnOk result (out.new.items ≡ out.old.items ++ unknown_line names.now name.now) }
{
    push_name_line(out, "Not known, in scripts: ", name, count_of(names, name))
}

// Appends the lines of these names.
fn push_lines(out: &mut Vec<u8>, names: &[Text], firsts: &[Text]) -> Result<(), AllocError>
    ensures { OnOk result (out.new.items ≡ out.old.items ++ flat_map (unknown_line names.now) firsts.now) }
{
    for name in firsts {
        push_line(out, names, name.as_str())?;
    }
    Ok(())
}

/// Appends a line for each name, with how many blocks have it. The only error is want of memory.
pub(crate) fn push_unknown(
    alloc: Global,
    out: &mut Vec<u8>,
    names: &[Text],
) -> Result<(), AllocError>
    ensures { OnOk result (out.new.items ≡ out.old.items ++ unknown_text names.now) }
{
    let firsts = firsts(alloc, names)?;
    push_lines(out, names, firsts.as_slice())
}

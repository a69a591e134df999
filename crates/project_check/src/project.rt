//! A project that is well linked, by its type.

ghost use Rattle.std.specs.Prelude.{◌≡◌, map};
ghost use Rattle.target_records.specs.Records.{records_in};
ghost use Rattle.project_spec.specs.Resolving as told;
ghost use Rattle.hat_index.specs.Index.{found, IsIndex};
ghost use Rattle.project_check.specs.Heads.{head_numbers};
ghost use Rattle.project_check.specs.Kept.{IsProjectOf};
ghost use Rattle.project_check.specs.Told.{IsToldBySome};

use crate::heads::Heads;
use crate::procedures::{Callee, called};
use block_checks::BlockLinks;
use block_table::BlockTable;
use cached_blocks::{CachedBlock, CachedBlocks, ref_in};
use hat_index::HatIndex;
use machine_spec::{BlockId, TargetId};
use name_resolving::ResolvedNames;
use project_spec::{Block, Resolved};
use scratch_values::VarRef;
use target_records::Records;

/// A project. Each of its targets has costumes, its links lead to blocks and a rank falls along each, its blocks pass all
/// tests of the loader, and what the blocks of checked scripts name is resolved. All of it is what some accepted file
/// tells. Contracts see its program, and of each target the blocks, their ids and what they name (specs/Loaded.antt).
pub struct Project {
    pub(crate) records: Records,
    pub(crate) tables: Vec<BlockTable>,
    pub(crate) links: Vec<BlockLinks>,
    pub(crate) names: ResolvedNames,
    pub(crate) cached: Vec<CachedBlocks>,
    pub(crate) heads: Vec<Heads>,
    pub(crate) hats: HatIndex,
    pub(crate) blocks: u32,
    pub ghost kept: { IsProjectOf (records_in records) (map (λ t. t.blocks) tables.items) links.items names cached.items heads.items blocks },
    pub ghost indexed: { IsIndex (found hats) (map (λ t. t.blocks) tables.items) (map head_numbers (map (λ t. t.blocks) tables.items)) },
    pub ghost told: { ∥ IsToldBySome (records_in records) tables.items names ∥₁ },
}

// Not derived: whoever holds one calls this, and does not prove anew how it is taken apart.
impl Drop for Project {
    fn drop(self) {
        let Project {
            records: _records,
            tables: _tables,
            links: _links,
            names: _names,
            cached: _cached,
            heads: _heads,
            hats: _hats,
            blocks: _,
        } = self;
    }
}

impl Project {
    ghost use Rattle.std.specs.Prelude.{◌≡◌, ◌<◌, [], true, false, length, slice_get, slice_index, option_map, unwrap_or, find, Some, IfSome};
    ghost use Rattle.std.specs.List.{All};
    ghost use Rattle.target_records.specs.Records.{records_in};
    ghost use Rattle.project_spec.specs.Linked.{IsClosed, AreRanks};
    ghost use Rattle.project_spec.specs.Resolving as told;
    ghost use Rattle.project_spec.specs.Trees.{script};
    ghost use Rattle.cached_blocks.specs.Cached.{cached_blocks};
    ghost use Rattle.machine_spec.specs.Program.{definition_of, procedure};
    ghost use Rattle.project_check.specs.Counts.{block_count};
    ghost use Rattle.project_check.specs.Heads.{head_numbers};
    ghost use Rattle.project_check.specs.Hats.{IsIndexOf};
    ghost use Rattle.target_records.specs.Costumes.{IsDressed};
    ghost use Rattle.project_check.specs.Procedures.{callee_at, callee_in, defines_at, procedure_in};
    ghost use Rattle.project_check.specs.Loaded.{tables_of, program_of, blocks_at, ids_at, names_at, ranks_at, sheet_at};

    /// The records of its targets and monitors. Each target has a costume, and fewer than 2^32 of them.
    pub fn records(&self) -> &Records
        ensures records { records_in result.now ≡ (program_of self.now).records }
        ensures targets { length (records_in result.now).targets ≡ length (tables_of self.now) }
        ensures dressed { All IsDressed (records_in result.now).targets }
    {
        &self.records
    }

    /// How many targets there are.
    pub fn target_count(&self) -> u32
        ensures { result ≡ length (tables_of self.now) }
    {
        self.tables.len() as u32
    }

    /// How many blocks all targets have together.
    pub fn block_count(&self) -> u32
        ensures { result ≡ block_count (tables_of self.now) }
    {
        self.blocks
    }

    /// The blocks of a target, with their ids.
    pub fn blocks(&self, target: TargetId) -> &BlockTable
        requires { target < length (tables_of self.now) }
        ensures blocks { result.now.blocks ≡ blocks_at target self.now }
        ensures ids { result.now.ids ≡ ids_at target self.now }
        ensures closed { IsClosed (blocks_at target self.now) }
    {
        let table = &self.tables[target.0 as usize];
        let _closed = table.blocks();
        table
    }

    /// The heads of a target, in block order: the hats and definitions at the tops of stacks. They head the checked
    /// scripts.
    pub fn heads(&self, target: TargetId) -> &Heads
        requires { target < length (tables_of self.now) }
        ensures { result.now ≡ head_numbers (blocks_at target self.now) }
    {
        &self.heads[target.0 as usize]
    }

    /// The index of its hats: under a target, an opcode and a folded text it has exactly the heads that are such hats, in
    /// block order, each with the block under it.
    pub fn hat_index(&self) -> &HatIndex
        ensures { IsIndexOf self.now result.now }
    {
        &self.hats
    }

    // The procedure of a target that is there.
    fn callee_of(&self, target: TargetId, code: &str) -> Option<Callee<'_>>
        requires { target < length (tables_of self.now) }
        ensures { option_map callee_in result ≡ callee_at (blocks_at target self.now) (find (defines_at (blocks_at target self.now) code.now) (head_numbers (blocks_at target self.now))) }
    {
        let blocks = self.tables[target.0 as usize].blocks();
        called(blocks, self.heads[target.0 as usize].as_slice(), code)
    }

    /// A target's procedure with the code: the first head that defines it, and its prototype. `None` exactly where the target
    /// has none, as where there is no such target. The procedure's body begins with the definition.
    pub fn callee(&self, target: TargetId, code: &str) -> Option<Callee<'_>>
        ensures procedure { option_map (λ c. procedure_in (sheet_at target self.now) (callee_in c)) result ≡ procedure target code.now (program_of self.now) }
        ensures begins { IfSome result (λ c. definition_of (procedure_in (sheet_at target self.now) (callee_in c)) ≡ c.definition) }
        ensures member { IfSome result (λ c. c.definition < length (blocks_at target self.now)) }
    {
        if target.0 >= self.target_count() {
            return None;
        }
        self.callee_of(target, code)
    }

    /// The definition of a target's procedure with the code, as `callee` gives it.
    pub fn procedure(&self, target: TargetId, code: &str) -> Option<BlockId>
        ensures body { option_map (λ k. script (sheet_at target self.now) (Some k)) result ≡ option_map (λ q. q.body) (procedure target code.now (program_of self.now)) }
        ensures member { IfSome result (λ k. k < length (blocks_at target self.now)) }
    {
        match self.callee(target, code) {
            Some(callee) => Some(callee.definition),
            None => None,
        }
    }

    /// A block of a target.
    pub fn block(&self, target: TargetId, id: BlockId) -> &Block
        requires held { target < length (tables_of self.now) }
        requires member { id < length (blocks_at target self.now) }
        ensures { slice_get (blocks_at target self.now) id ≡ Some result.now }
    {
        let blocks = self.tables[target.0 as usize].blocks();
        &blocks[id.0 as usize]
    }

    /// A block of a target as executions need it.
    #[inline]
    pub fn cached(&self, target: TargetId, id: BlockId) -> &CachedBlock
        requires held { target < length (tables_of self.now) }
        requires member { id < length (blocks_at target self.now) }
        ensures { slice_get (cached_blocks (sheet_at target self.now)) id ≡ Some result.now }
    {
        &self.cached[target.0 as usize].as_slice()[id.0 as usize]
    }

    /// The rank of a block of a target: it falls along every link, and is below the number of the target's blocks.
    pub fn rank(&self, target: TargetId, id: BlockId) -> usize
        requires held { target < length (tables_of self.now) }
        requires member { id < length (blocks_at target self.now) }
        ensures rank { result ≡ slice_index (ranks_at target self.now) id }
        ensures ranks { AreRanks (blocks_at target self.now) (ranks_at target self.now) }
    {
        self.links[target.0 as usize].rank(id.0)
    }

    /// The variable or list that a field of a block names, as it was resolved at load. `Some` exactly where the block is
    /// one of the target in a checked script and the field is one of its opcode that names a variable or a list.
    pub fn field_variable(&self, target: TargetId, id: BlockId, field: &str) -> Option<VarRef>
        requires { target < length (tables_of self.now) }
        ensures { result ≡ told.ref_at (names_at target self.now) id false field.now }
    {
        ref_in(self.refs(target, id), false, field)
    }

    /// The variable or list that an input of a block is, as it was resolved at load. `Some` exactly where the block is
    /// one of the target in a checked script and the input is a variable or a list.
    pub fn input_variable(&self, target: TargetId, id: BlockId, input: &str) -> Option<VarRef>
        requires { target < length (tables_of self.now) }
        ensures { result ≡ told.ref_at (names_at target self.now) id true input.now }
    {
        ref_in(self.refs(target, id), true, input)
    }

    // What the parts of a block name; nothing where the block is none of the target.
    fn refs(&self, target: TargetId, id: BlockId) -> &[Resolved]
        requires { target < length (tables_of self.now) }
        ensures { result.now ≡ unwrap_or (slice_get (names_at target self.now) id) [] }
    {
        match self.names.as_slice()[target.0 as usize].get(id.0 as usize) {
            Some(refs) => refs.as_slice(),
            None => &[],
        }
    }
}

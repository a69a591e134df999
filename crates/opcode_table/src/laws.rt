//! Laws of the table.

ghost use Rattle.std.specs.Prelude.{◌≡◌, ◌≢◌, ℕ, List, Some, IfSome};
ghost use Rattle.opcode_table.specs.Kinds.{group, hat_kind, kind};
ghost use Rattle.opcode_table.specs.Table.{of_name, row};
ghost use Rattle.opcode_table.specs.declared.groups.Group.{Group};
ghost use Rattle.opcode_table.specs.declared.hats.HatKind.{HatKind};
ghost use Rattle.opcode_table.specs.declared.kinds.Kind.{Kind};
ghost use Rattle.opcode_table.specs.declared.opcode.Opcode.{Opcode};
ghost use Rattle.opcode_table.specs.declared.shape.Role.{Role};

/// The name of an opcode is found, and names that opcode.
pub fn each_name_is_found()
    ensures { (op : Opcode) → of_name (row op).name ≡ Some op }
{}

/// What is found by a name has that name, so what is no name of the table is not found.
pub fn found_by_its_name()
    ensures { (name : List ℕ) → IfSome (of_name name) (λ op. (row op).name ≡ name) }
{}

/// No two opcodes have one name.
pub fn names_are_distinct()
    ensures { (a b : Opcode) → (row a).name ≡ (row b).name → a ≡ b }
{}

/// The opcodes with the role of a hat are those of which the kind of hat is known.
pub fn every_hat_is_of_a_kind()
    ensures known { (op : Opcode) → (row op).role ≡ Role.Hat → hat_kind op ≢ HatKind.NoHat }
    ensures only { (op : Opcode) → hat_kind op ≢ HatKind.NoHat → (row op).role ≡ Role.Hat }
{}

/// Only commands are of a group other than Control.
pub fn groups_are_of_commands()
    ensures { (op : Opcode) → group op ≢ Group.Control → (row op).role ≡ Role.Command }
{}

/// Only commands are of a kind other than Plain.
pub fn kinds_are_of_commands()
    ensures { (op : Opcode) → kind op ≢ Kind.Plain → (row op).role ≡ Role.Command }
{}

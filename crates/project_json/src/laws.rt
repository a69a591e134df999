//! Laws of JSON texts and their faults.

ghost use Rattle.std.specs.Prelude.{◌≡◌, ◌≢◌, ◌≤◌, ℕ, List, Some, length};
ghost use Rattle.project_json.specs.Tree.{Tree};
ghost use Rattle.project_json.specs.Grammar.{IsJson, put};
ghost use Rattle.project_json.specs.Parts.{value_named};
ghost use Rattle.project_json.specs.Refusal.{IsFault, TextOrFault};
ghost use Rattle.project_json.specs.Size.{size_of};
ghost use Rattle.project_json.specs.Text.{IsText, max_depth};
ghost use Rattle.project_json.specs.TextTree.{tree_of};
ghost use Rattle.project_json.specs.declared.refusal.JsonRefusal.{JsonRefusal};

/// A JSON text stands for one tree, whatever the nesting that is allowed.
pub fn one_tree()
    ensures { (m n : ℕ) (bytes : List ℕ) (t u : Tree) → IsJson m bytes t → IsJson n bytes u → t ≡ u }
{}

/// The tree of a JSON text has no more members and items than the text has bytes.
pub fn no_more_than_bytes()
    ensures { (n : ℕ) (bytes : List ℕ) (t : Tree) → IsJson n bytes t → size_of t ≤ length bytes }
{}

/// A name that is repeated is found with its later value, and all other names with theirs.
pub fn later_value_is_found()
    ensures later { (name : List ℕ) (t : Tree) (ms : List (List ℕ × Tree)) → value_named name (put name t ms) ≡ Some t }
    ensures others { (name other : List ℕ) (t : Tree) (ms : List (List ℕ × Tree)) → other ≢ name → value_named other (put name t ms) ≡ value_named other ms }
{}

/// The function that gives a JSON text's tree gives the tree of the grammar, and gives one for each text that is read.
pub fn each_text_has_its_tree()
    ensures is { (bytes : List ℕ) (t : Tree) → tree_of bytes ≡ Some t → IsText max_depth bytes t }
    ensures each { (bytes : List ℕ) (t : Tree) → IsText max_depth bytes t → tree_of bytes ≡ Some t }
{}

/// All bytes are a JSON text nested at most so deep, or have a fault.
pub fn text_or_fault()
    ensures { (n : ℕ) (bytes : List ℕ) → TextOrFault n bytes }
{}

/// A JSON text nested at most so deep has no fault.
pub fn text_has_no_fault()
    ensures { (n : ℕ) (bytes : List ℕ) (t : Tree) (r : JsonRefusal) → IsText n bytes t → IsFault n bytes r → ⊥ }
{}

/// Bytes have one fault at most.
pub fn one_fault()
    ensures { (n : ℕ) (bytes : List ℕ) (r s : JsonRefusal) → IsFault n bytes r → IsFault n bytes s → r ≡ s }
{}

//! What the text of a JSON value is: a text without newlines that reads back as the value. There is nothing to run.
#![tactic(auto)]

ghost use Rattle.std.specs.Prelude.{◌≡◌, ◌≤◌, ◌==◌, ℕ, List, Some, IsUtf8, false};
ghost use Rattle.std.specs.List.{list_any};
ghost use Rattle.serde_json.specs.Data.{Data, Members, object, put, depth};
ghost use Rattle.serde_json.specs.Read.{read, max_depth};
ghost use Rattle.serde_json.specs.Written.{compact_text, has_float};
ghost use Rattle.json_tree.specs.Canonical.{IsCanonical};
ghost use Rattle.json_tree.specs.Writable.{IsWritable, MembersAreWritable};
ghost use Rattle.json_back.specs.Told.{IsTold, MembersAreTold};

/// A writable value, nested at most 127 deep, reads back from its compact text.
pub fn written_values_read_back()
    ensures { (d : Data) → IsWritable d → depth d ≤ max_depth → read (compact_text d) ≡ Some d }
{}

/// The compact text of a writable value is UTF-8, in one line, and without a float.
pub fn written_values_are_texts()
    ensures utf8 { (d : Data) → IsWritable d → IsUtf8 (compact_text d) }
    ensures no_newline { (d : Data) → IsWritable d → list_any (λ b. b == 10) (compact_text d) ≡ false }
    ensures whole { (d : Data) → IsWritable d → has_float d ≡ false }
{}

/// A writable value is such as reading gives, and an object stays writable with a further member.
pub fn writable_values_are_canonical()
    ensures canonical { (d : Data) → IsWritable d → IsCanonical d }
    ensures puts { (k : List ℕ) (d : Data) (ms : Members) → IsWritable d → IsUtf8 k → MembersAreWritable ms → MembersAreWritable (put k d ms) }
{}

/// What reads back from its own text does so inside an object too: a value that was read, a writable value, and an object of such values.
pub fn told_values_read_back()
    ensures read { (d : Data) → IsUtf8 (compact_text d) → read (compact_text d) ≡ Some d → has_float d ≡ false → IsTold d }
    ensures writable { (d : Data) → IsWritable d → IsTold d }
    ensures objects { (ms : Members) → MembersAreTold ms → IsTold (object ms) }
    ensures reads { (d : Data) → IsTold d → depth d ≤ max_depth → read (compact_text d) ≡ Some d }
{}

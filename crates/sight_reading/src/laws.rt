//! What a change leads to, as a law. There is nothing to run.

ghost use Rattle.std.specs.Prelude.{◌≡◌, ◌≤◌};
ghost use Rattle.serde_json.specs.Data.{Data, depth};
ghost use Rattle.serde_json.specs.Read.{max_depth};
ghost use Rattle.serde_json.specs.Written.{compact_text};
ghost use Rattle.json_tree.specs.Canonical.{IsCanonical};
ghost use Rattle.json_tree.specs.Writable.{IsWritable};
ghost use Rattle.player_sight.specs.Change.{put_part, gone_part, patched};

use json_back::{writable_values_are_canonical, written_values_read_back};

/// An old value, patched by the parts of a change, has the text of the new value, and is the new value where both can be
/// written as texts that read back.
pub fn changes_lead_to_the_new_value()
    ensures text { (old new : Data) → IsCanonical old → IsCanonical new
        → compact_text (patched old (gone_part old new) (put_part old new)) ≡ compact_text new }
    ensures value { (old new : Data) → IsWritable old → IsWritable new → depth old ≤ max_depth → depth new ≤ max_depth
        → patched old (gone_part old new) (put_part old new) ≡ new }
{
    writable_values_are_canonical();
    written_values_read_back();
}

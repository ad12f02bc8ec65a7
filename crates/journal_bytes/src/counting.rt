//! Counts the records of a file.

ghost use Rattle.std.specs.Prelude.{◌≡◌, ◌≤◌, ℕ, List, length};
ghost use Rattle.record_file.specs.Records.{HasRecords};

use record_file::{Gate, gate_at};

/// How many records a file has. Where it is damaged, those before the damage are counted.
pub fn count_records(bytes: &[u8]) -> u64
    requires { length bytes.now ≤ 268435456 }
    ensures { (records : List (List ℕ)) → HasRecords bytes.now records → result ≡ length records }
{
    let mut at = 0;
    let mut count = 0;
    'records: while at < bytes.len() {
        match gate_at(&bytes[at..]) {
            Gate::Record { count: size } => {
                at = at + 5 + size;
                count += 1;
            }
            Gate::Closed => return count,
            Gate::Broken => return count,
        }
    }
    count
}

//! A law of files of records. There is nothing to run.

ghost use Rattle.std.specs.Prelude.{◌≡◌, ◌<◌, ◌^◌, ℕ, List, length};
ghost use Rattle.record_file.specs.Records.{HasRecords};

/// A file has one list of records.
pub fn records_are_one()
    ensures { (file : List ℕ) (records others : List (List ℕ)) → length file < 2 ^ 32 → HasRecords file records → HasRecords file others → records ≡ others }
{}

//! Laws of the definitions, proved for all values.
ghost use Rattle.std.specs.Prelude.{◌≡◌, ℕ, List, length};
ghost use Rattle.csv.specs.Reading.{default_config, records, strip_bom};
ghost use Rattle.fq_places.specs.Records.{record_lines};

/// There are as many lines on which records begin as there are records, so each record begins on the line of its number among them.
pub fn lines_of_records()
    ensures { (bytes : List ℕ) → length (record_lines bytes) ≡ length (records default_config (strip_bom bytes)) }
{}

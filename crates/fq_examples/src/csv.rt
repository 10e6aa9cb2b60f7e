//! Files as streams, and frames as text.
ghost use Rattle.std.specs.Prelude.{◌≡◌, ◌∷◌, [], true, false, codes, pos, negsuc, Some};
ghost use Rattle.fq_column.specs.declared.cells.Cell.TheVariants as cell;
ghost use Rattle.fq_column.specs.declared.cells.Kind.TheVariants as kind;
ghost use Rattle.fq_column.specs.Stream.{done, faulted};
ghost use Rattle.fq_notation.specs.declared.notations.Notation.TheVariants.{Date, Decimal};
ghost use Rattle.fq_csv.specs.File.{file_stream, plain};
ghost use Rattle.fq_csv.specs.Printed.{printed, printed_in};
ghost use Rattle.fq_csv.specs.declared.faults.ScanFault.TheVariants.{BadCell, Header, TooLong, Width};

/// Files as streams.
pub fn worked_files()
    ensures numbers { file_stream 0 (plain ((codes "x", kind.Whole) ∷ [])) 9 (codes "x\n+9223372036854775807\n-0\n007\n")
        ≡ done ((cell.Whole (pos 9223372036854775807) ∷ []) ∷ (cell.Whole (pos 0) ∷ []) ∷ (cell.Whole (pos 7) ∷ []) ∷ []) }
    ensures past_64_bits { file_stream 0 (plain ((codes "x", kind.Whole) ∷ [])) 9 (codes "x\n-9223372036854775808\n-9223372036854775809\n")
        ≡ record { rows = (cell.Whole (negsuc 9223372036854775807) ∷ []) ∷ []; fault = Some (BadCell 0 2 0) } }
    ensures texts { file_stream 0 (plain ((codes "t", kind.Text) ∷ [])) 9 (codes "t\n\"\"\n\"a,b\"\n\"say \"\"hi\"\"\"\n\"x\ny\"\n")
        ≡ done ((cell.Null ∷ []) ∷ (cell.Text (codes "a,b") ∷ []) ∷ (cell.Text (codes "say \"hi\"") ∷ []) ∷ (cell.Text (codes "x\ny") ∷ []) ∷ []) }
    ensures truth_values { file_stream 0 (plain ((codes "id", kind.Whole) ∷ (codes "ok", kind.Truth) ∷ [])) 9 (codes "id,ok\r\n1,TRUE\r\n2,False")
        ≡ done ((cell.Whole (pos 1) ∷ cell.Truth true ∷ []) ∷ (cell.Whole (pos 2) ∷ cell.Truth false ∷ []) ∷ []) }
    ensures no_utf8 { file_stream 0 (plain ((codes "t", kind.Text) ∷ [])) 9 (116 ∷ 10 ∷ 255 ∷ 10 ∷ []) ≡ faulted (BadCell 0 1 0) }
    ensures no_record { file_stream 7 (plain ((codes "x", kind.Whole) ∷ [])) 9 [] ≡ faulted (Header 7) }
    ensures ragged { file_stream 0 (plain ((codes "a", kind.Whole) ∷ (codes "b", kind.Whole) ∷ [])) 9 (codes "a,b\nx\n") ≡ faulted (Width 0 1) }
    ensures too_long { file_stream 5 (plain ((codes "v", kind.Whole) ∷ [])) 2 (codes "v\n1\n2\n3\n")
        ≡ record { rows = (cell.Whole (pos 1) ∷ []) ∷ (cell.Whole (pos 2) ∷ []) ∷ []; fault = Some (TooLong 5) } }
    ensures decimals_and_dates { file_stream 0 (record { schema = (codes "amount", kind.Whole) ∷ (codes "day", kind.Whole) ∷ (codes "n", kind.Whole) ∷ []; nulls = []; notations = Decimal 2 ∷ Date ∷ []; projection = [] })
        9 (codes "amount,day,n\n12.5,2024-02-29,3\n-.05,,+4\n1.234,2024-03-05,5\n")
        ≡ record {
          rows = (cell.Whole (pos 1250) ∷ cell.Whole (pos 20240229) ∷ cell.Whole (pos 3) ∷ []) ∷ (cell.Whole (negsuc 4) ∷ cell.Null ∷ cell.Whole (pos 4) ∷ []) ∷ [];
          fault = Some (BadCell 0 3 0);
        } }
{}

/// Frames as text.
pub fn worked_frames()
    ensures null_alone { printed (record { fields = (codes "n", kind.Whole) ∷ []; rows = (cell.Null ∷ []) ∷ (cell.Whole (negsuc 4) ∷ []) ∷ [] }) ≡ codes "n\n\"\"\n-5\n" }
    ensures quoted { printed (record { fields = (codes "t", kind.Text) ∷ []; rows = (cell.Text (codes "a,b") ∷ []) ∷ (cell.Text (codes "say \"hi\"") ∷ []) ∷ (cell.Text (codes "x\ny") ∷ []) ∷ [] })
        ≡ codes "t\n\"a,b\"\n\"say \"\"hi\"\"\"\n\"x\ny\"\n" }
    ensures decimals_and_dates { printed_in (Decimal 2 ∷ Date ∷ [])
        (record { fields = (codes "amount", kind.Whole) ∷ (codes "day", kind.Whole) ∷ (codes "n", kind.Whole) ∷ []; rows = (cell.Whole (negsuc 4) ∷ cell.Whole (pos 20240229) ∷ cell.Whole (pos 7) ∷ []) ∷ (cell.Null ∷ cell.Whole (pos 20230229) ∷ cell.Null ∷ []) ∷ [] })
        ≡ codes "amount,day,n\n-0.05,2024-02-29,7\n,20230229,\n" }
{}

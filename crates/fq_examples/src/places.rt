//! The lines of records, and where files are written otherwise than RFC 4180 says.
ghost use Rattle.std.specs.Prelude.{◌≡◌, ◌∷◌, [], Some, true, false, codes};
ghost use Rattle.fq_places.specs.Marks.{marks_of};
ghost use Rattle.fq_places.specs.Records.{ends_in_quotes, flaws_of, record_lines};
ghost use Rattle.fq_places.specs.declared.marks.Flaw.TheVariants as flaw;

/// The lines on which records begin.
pub fn worked_lines()
    ensures breaks { record_lines (codes "id,t\n\n1,\"a\nb\"\r\n\r\n2,c") ≡ 1 ∷ 3 ∷ 6 ∷ [] }
    ensures returns { record_lines (codes "a\rb\r\rc\n\"d\re\"\nf") ≡ 1 ∷ 1 ∷ 1 ∷ 2 ∷ 3 ∷ [] }
    ensures mark { record_lines (239 ∷ 187 ∷ 191 ∷ codes "\"a\nb\"\nc\n") ≡ 1 ∷ 3 ∷ [] }
    ensures none { record_lines (codes "\n\r\n") ≡ [] }
{}

/// Files that end in quotes, and files that do not.
pub fn worked_ends()
    ensures begun { ends_in_quotes (codes "a\n1,\"b\n2,c\n") ≡ true }
    ensures closed { ends_in_quotes (codes "a\n1,\"b\"\n") ≡ false }
    ensures doubled { ends_in_quotes (codes "\"b\"\"") ≡ true }
    ensures within { ends_in_quotes (codes "b\"\n") ≡ false }
{}

/// The flaws of files, on their lines.
pub fn worked_flaws()
    ensures returns { flaws_of (marks_of (codes "a\rb\r\nc\r\r")) ≡ record { line = 1; begins = true; flaw = Some flaw.LoneReturn }
        ∷ record { line = 2; begins = false; flaw = Some flaw.LoneReturn } ∷ [] }
    ensures quotes { flaws_of (marks_of (codes "a\n\"b\"c,\"d\"\"\"\n")) ≡ record { line = 2; begins = false; flaw = Some flaw.TextAfterQuote } ∷ [] }
    ensures opened { flaws_of (marks_of (codes "a\nb,\"c\nd")) ≡ record { line = 2; begins = false; flaw = Some flaw.OpenQuote } ∷ [] }
    ensures none { flaws_of (marks_of (codes "a\r\n\r\nb,\"c\rd\"\r\n")) ≡ [] }
{}

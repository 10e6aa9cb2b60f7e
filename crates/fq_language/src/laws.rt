//! A law of the language, proved for all values.
ghost use Rattle.std.specs.Prelude.{◌≡◌, All, [], Some};
ghost use Rattle.serde_json.specs.Data.{Data};
ghost use Rattle.fq_language.specs.Plan.{PlanData};
ghost use Rattle.fq_language.specs.Spelling.{plan_of};
ghost use Rattle.fq_language.specs.Versions.{IsNextVersion, IsOldStep};

/// A plan of the first version, its number turned into the second's, is the same plan; no text in it is null but the empty one,
/// and its joins are inner or left ones in which no null matches.
pub fn plans_of_both_versions()
    ensures { (former latter : Data) (p : PlanData) → IsNextVersion former latter → plan_of former ≡ Some p →
        (plan_of latter ≡ Some p) × All (λ s. s.nulls ≡ []) p.sources × All IsOldStep p.steps }
{}

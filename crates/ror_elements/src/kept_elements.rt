//! Which elements are kept.

ghost use Rattle.std.specs.Prelude.{◌≡◌};
ghost use Rattle.std.specs.List.{list_any};
ghost use Rattle.ror_elements.specs.Kept.{is_kept, is_row};

/// An element that is kept: the path of its parent from the root, each local name behind a `/`, and
/// its own local name, where `*` stands for every name. Elements inside one that is not listed are
/// not kept.
pub(crate) const KEPT: [(&str, &str); 39] = [
    ("", "XMCDA"),
    ("/XMCDA", "alternatives"),
    ("/XMCDA/alternatives", "alternative"),
    ("/XMCDA/alternatives/alternative", "active"),
    ("/XMCDA", "criteria"),
    ("/XMCDA/criteria", "criterion"),
    ("/XMCDA/criteria/criterion", "active"),
    ("/XMCDA/criteria/criterion", "scale"),
    ("/XMCDA/criteria/criterion/scale", "quantitative"),
    (
        "/XMCDA/criteria/criterion/scale/quantitative",
        "preferenceDirection",
    ),
    ("/XMCDA/criteria/criterion/scale", "qualitative"),
    ("/XMCDA", "performanceTable"),
    ("/XMCDA/performanceTable", "alternativePerformances"),
    (
        "/XMCDA/performanceTable/alternativePerformances",
        "alternativeID",
    ),
    (
        "/XMCDA/performanceTable/alternativePerformances",
        "performance",
    ),
    (
        "/XMCDA/performanceTable/alternativePerformances/performance",
        "criterionID",
    ),
    (
        "/XMCDA/performanceTable/alternativePerformances/performance",
        "value",
    ),
    (
        "/XMCDA/performanceTable/alternativePerformances/performance/value",
        "*",
    ),
    (
        "/XMCDA/performanceTable/alternativePerformances/performance/value/rational",
        "numerator",
    ),
    (
        "/XMCDA/performanceTable/alternativePerformances/performance/value/rational",
        "denominator",
    ),
    ("/XMCDA", "categories"),
    ("/XMCDA/categories", "category"),
    ("/XMCDA/categories/category", "active"),
    ("/XMCDA/categories/category", "rank"),
    ("/XMCDA/categories/category/rank", "integer"),
    ("/XMCDA", "alternativesComparisons"),
    ("/XMCDA/alternativesComparisons", "pairs"),
    ("/XMCDA/alternativesComparisons/pairs", "pair"),
    ("/XMCDA/alternativesComparisons/pairs/pair", "initial"),
    ("/XMCDA/alternativesComparisons/pairs/pair/initial", "*"),
    ("/XMCDA/alternativesComparisons/pairs/pair", "terminal"),
    ("/XMCDA/alternativesComparisons/pairs/pair/terminal", "*"),
    ("/XMCDA", "alternativesAffectations"),
    ("/XMCDA/alternativesAffectations", "alternativeAffectation"),
    (
        "/XMCDA/alternativesAffectations/alternativeAffectation",
        "*",
    ),
    (
        "/XMCDA/alternativesAffectations/alternativeAffectation/categoriesInterval",
        "lowerBound",
    ),
    (
        "/XMCDA/alternativesAffectations/alternativeAffectation/categoriesInterval",
        "upperBound",
    ),
    (
        "/XMCDA/alternativesAffectations/alternativeAffectation/categoriesInterval/lowerBound",
        "categoryID",
    ),
    (
        "/XMCDA/alternativesAffectations/alternativeAffectation/categoriesInterval/upperBound",
        "categoryID",
    ),
];

/// Whether the child with this local name of an element with this path is kept.
#[tactic(auto, unfolding(crate::specs::Kept::is_kept))]
pub(crate) fn is_kept(path: &[u8], name: &[u8]) -> bool
    ensures { result ≡ is_kept path.now name.now }
{
    has_row(KEPT.as_slice(), path, name)
}

/// Whether some of these rows is the one of a child.
fn has_row(rows: &[(&str, &str)], path: &[u8], name: &[u8]) -> bool
    ensures { result ≡ list_any (λ row. is_row path.now name.now row.0.now row.1.now) rows.now }
{
    rows.iter().any(|row| is_row(path, name, row.0.as_bytes(), row.1.as_bytes()))
}

/// Whether a row of the table is the one of a child.
fn is_row(path: &[u8], name: &[u8], parent: &[u8], child: &[u8]) -> bool
    ensures { result ≡ is_row path.now name.now parent.now child.now }
{
    if parent != path {
        return false;
    }
    child == name || child == b"*".as_slice()
}

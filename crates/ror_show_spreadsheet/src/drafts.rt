//! A draft's faults as those of a sheet.

ghost use Rattle.std.specs.Prelude.{◌≡◌, [], option_map, OnOk};
ghost use Rattle.ror_text.specs.Reading.{Gives};
ghost use Rattle.ror_table.specs.declared.fault.DraftFault.TheVariants.{BadId, RepeatedId, TooMany};
ghost use Rattle.ror_table.specs.declared.fault.What.TheVariants.{Criteria};
ghost use Rattle.ror_table.specs.Draft.{draft_fault, add_criterion, with_criterion};
ghost use Rattle.ror_show_cells.specs.Faults.{sheet_fault, fault_at};
ghost use Rattle.ror_show_spreadsheet.specs.Drafts as spec;

use ror_show_cells::{SheetError, SheetKind, bad};
use ror_table::{Draft, DraftFault, Scale};

/// The error of a draft's fault at this place.
pub(crate) fn draft_error(fault: DraftFault, row: usize, column: usize) -> SheetError
    ensures { sheet_fault result ≡ option_map (λ f. fault_at (spec.draft_kind f) row column) (draft_fault fault) }
{
    match fault {
        DraftFault::BadId => bad(SheetKind::NoName, row, column),
        DraftFault::RepeatedId => bad(SheetKind::RepeatedId, row, column),
        DraftFault::TooMany(what) => bad(SheetKind::TooMany(what), row, column),
        DraftFault::Empty => bad(SheetKind::Empty, row, column),
        DraftFault::WideScale => bad(SheetKind::WideScale, row, column),
        DraftFault::Memory => SheetError::Memory,
    }
}

/// Adds a criterion of this scale.
pub(crate) fn add_criterion(draft: &mut Draft, id: &str, scale: Scale) -> Result<(), DraftFault>
    requires { draft.old.alternatives ≡ [] }
    ensures exact { Gives (λ _. draft.new) draft_fault result
        (with_criterion BadId RepeatedId (TooMany Criteria) draft.old id.now scale) }
    ensures added { OnOk result (draft.new ≡ add_criterion draft.old id.now scale) }
{
    if scale.linear {
        draft.criterion_linear(id, scale.direction)
    } else {
        draft.criterion(id, scale.direction)
    }
}

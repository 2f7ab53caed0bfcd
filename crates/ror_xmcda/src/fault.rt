//! Faults at elements.

ghost use Rattle.std.specs.Prelude.{◌≡◌};
ghost use Rattle.ror_table.specs.declared.fault.TableKind.TheVariants.{Unsupported};
ghost use Rattle.ror_table.specs.Plain.{at_line};

use ror_table::{Kind, TableError, TableFault, TableKind};

/// The fault of this kind at a line.
pub(crate) fn fault(kind: TableKind, line: u32) -> TableError
    ensures { result ≡ TableError.Bad (at_line line kind) }
{
    TableError::Bad(TableFault { kind, line })
}

/// What is not supported, at a line.
pub(crate) fn unsupported(kind: Kind, line: u32) -> TableError
    ensures { result ≡ TableError.Bad (at_line line (Unsupported kind)) }
{
    fault(TableKind::Unsupported(kind), line)
}

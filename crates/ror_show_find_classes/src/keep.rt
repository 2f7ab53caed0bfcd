//! What a check has to keep.

ghost use Rattle.std.specs.Prelude.{◌≡◌};
ghost use Rattle.ror_show_find_classes.specs.Times as spec;

use ror_bench::Keep;
use ror_session::{Asked, Command};

/// What a check has to keep of a line of a desk so that its classes can be written: of one that asks for classes its answers with
/// what stood, and of one that asks nothing what came of it.
pub fn keep_for(command: &Command) -> Keep
    ensures { result ≡ spec.keep_for command.now }
{
    match command {
        Command::Ask(Asked::Classes(_)) => Keep::Standing,
        Command::Ask(_) => Keep::Nothing,
        _ => Keep::Block,
    }
}

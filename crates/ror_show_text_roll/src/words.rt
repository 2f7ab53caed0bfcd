//! What a line says, in the words of a session.

ghost use Rattle.std.specs.Prelude.{◌≡◌, ◌++◌, OnOk};
ghost use Rattle.ror_show_text_roll.specs.Words as spec;

use itoa::Buffer;
use ror_session::{Asked, Command, Named};
use ror_show_kit::{spoken_names, spoken_pairs, write_named, write_spoken};
use std::alloc::AllocError;

/// Adds what a command says.
pub(crate) fn write_command(text: &mut Vec<u8>, command: &Command) -> Result<(), AllocError>
    ensures { OnOk result (text.new.items ≡ text.old.items ++ spec.command_text command.now) }
{
    match command {
        Command::State(named) => write_named(text, named),
        Command::Withdraw(number) => {
            text.extend_from_slice(b"withdraw")?;
            write_number(text, *number)
        }
        Command::Replace(number, named) => write_replacement(text, *number, named),
        Command::Repair => text.extend_from_slice(b"repair"),
        Command::Undo => text.extend_from_slice(b"undo"),
        Command::Ask(asked) => write_asked(text, asked),
    }
}

/// Adds what a command states by itself or in another's place.
pub(crate) fn write_stated(text: &mut Vec<u8>, command: &Command) -> Result<(), AllocError>
    ensures { OnOk result (text.new.items ≡ text.old.items ++ spec.stated_text command.now) }
{
    match command {
        Command::State(named) | Command::Replace(_, named) => write_named(text, named),
        _ => Ok(()),
    }
}

fn write_replacement(text: &mut Vec<u8>, number: u32, named: &Named) -> Result<(), AllocError>
    ensures { OnOk result (text.new.items
        ≡ text.old.items ++ spec.command_text (Command.Replace number named.now)) }
{
    text.extend_from_slice(b"replace")?;
    write_number(text, number)?;
    text.extend_from_slice(b" ")?;
    write_named(text, named)
}

/// Adds a question by its names.
fn write_asked(text: &mut Vec<u8>, asked: &Asked) -> Result<(), AllocError>
    ensures { OnOk result (text.new.items ≡ text.old.items ++ spec.asked_text asked.now) }
{
    text.extend_from_slice(b"ask ")?;
    text.extend_from_slice(asked_verb(asked))?;
    write_asked_names(text, asked)
}

fn asked_verb(asked: &Asked) -> &'static [u8]
    ensures { result.now ≡ spec.asked_verb asked.now }
{
    match asked {
        Asked::Consistent => b"consistent",
        Asked::Necessary(_, _) | Asked::NecessaryStrength(_, _, _) => b"necessary",
        Asked::Possible(_, _) | Asked::PossibleStrength(_, _, _) => b"possible",
        Asked::PossibleClass(_, _) => b"possible-class",
        Asked::NecessaryClass(_, _) => b"necessary-class",
        Asked::Classes(_) => b"classes",
        Asked::Relation => b"relation",
    }
}

fn write_asked_names(text: &mut Vec<u8>, asked: &Asked) -> Result<(), AllocError>
    ensures { OnOk result (text.new.items ≡ text.old.items ++ spec.asked_names asked.now) }
{
    match asked {
        Asked::Consistent | Asked::Relation => Ok(()),
        Asked::Necessary(a, b) | Asked::Possible(a, b) => {
            write_spoken(text, b" ", spoken_names(b"", a, b))
        }
        Asked::NecessaryStrength(p, q, on) | Asked::PossibleStrength(p, q, on) => {
            write_spoken(text, b" ", spoken_pairs(b"", p, q, on.as_ref()))
        }
        Asked::PossibleClass(a, class) | Asked::NecessaryClass(a, class) => {
            write_word(text, a.as_str().as_bytes())?;
            write_number(text, *class)
        }
        Asked::Classes(a) => write_word(text, a.as_str().as_bytes()),
    }
}

/// Adds a space and a word.
pub(crate) fn write_word(text: &mut Vec<u8>, word: &[u8]) -> Result<(), AllocError>
    ensures { OnOk result (text.new.items ≡ text.old.items ++ spec.word word.now) }
{
    text.push(b' ')?;
    text.extend_from_slice(word)
}

/// Adds a space and a number.
pub(crate) fn write_number(text: &mut Vec<u8>, number: u32) -> Result<(), AllocError>
    ensures { OnOk result (text.new.items ≡ text.old.items ++ spec.number number) }
{
    write_word(text, Buffer::new().format(number).as_bytes())
}

//! Numbers, texts and names.

ghost use Rattle.std.specs.Prelude.{◌≡◌, IfOk};
ghost use Rattle.std.specs.Str.{IsUtf8};
ghost use Rattle.serde_json.specs.Data.{string};
ghost use Rattle.serde_json.specs.View.{view};
ghost use Rattle.ror_text.specs.Reading.{Gives};
ghost use Rattle.ror_json.specs.Form.{list_form, number_form};
ghost use Rattle.ror_json.specs.Reading as spec;
ghost use Rattle.ror_json.specs.Reading.{misfit};

use crate::fault::Misfit;
use itoa::Buffer;
use ror_proof::names::{Name, named};
use ror_system::Numbers;
use ror_text::numbers::read_number;
use ror_text::reading::{need, refuse_if};
use serde_json::{Value, push};
use std::alloc::{AllocError, Global};

/// A count, a place, a system or the number of a line or of a statement.
#[tactic(auto, unfolding(crate::specs::Reading::count_of))]
pub(crate) fn count_of(v: &Value) -> Result<u32, Misfit>
    ensures { Gives (λ n. n) misfit result (spec.count_of (view v.now)) }
{
    let number = need(v.as_u64(), Misfit::Shape)?;
    if number < 1 << 32 {
        Ok(number as u32)
    } else {
        Err(Misfit::Shape)
    }
}

/// That the value is this number.
#[tactic(auto, unfolding(crate::specs::Reading::the_count_of))]
pub(crate) fn the_count_of(expected: u32, v: &Value) -> Result<(), Misfit>
    ensures { Gives (λ _. tt) misfit result (spec.the_count_of expected (view v.now)) }
{
    let number = count_of(v)?;
    refuse_if(number != expected, Misfit::Shape)
}

/// A text.
#[tactic(auto, unfolding(crate::specs::Reading::text_of))]
pub(crate) fn text_of(v: &Value) -> Result<&str, Misfit>
    ensures { Gives (λ text. text.now) misfit result (spec.text_of (view v.now)) }
{
    need(v.as_str(), Misfit::Shape)
}

/// Which of these the text stands for.
#[tactic(auto, unfolding(crate::specs::Reading::name_in))]
pub(crate) fn name_in<N: Name + Drop>(names: &[N], v: &Value) -> Result<N, Misfit>
    ensures { Gives (λ name. name) misfit result (spec.name_in N.word_of names.now (view v.now)) }
{
    let text = text_of(v)?;
    need(named(names, text.as_bytes()), Misfit::Shape)
}

/// A number of a certificate.
#[tactic(auto, unfolding(crate::specs::Reading::number_in))]
pub(crate) fn number_in(v: &Value) -> Result<i128, Misfit>
    ensures { Gives (λ z. z) misfit result (spec.number_in (view v.now)) }
{
    let text = text_of(v)?;
    need(read_number(text.as_bytes()), Misfit::Shape)
}

/// The form of the numbers of a certificate.
pub(crate) fn numbers_value(alloc: Global, numbers: &Numbers) -> Result<Value, AllocError>
    ensures { IfOk result (λ v. view v ≡ list_form number_form numbers.now) }
{
    let mut texts = Vec::with_capacity(alloc, numbers.len())?;
    'numbers: for k in 0..numbers.len() {
        let text = number_value(alloc, numbers.entry(k))?;
        push(&mut texts, text)?;
    }
    Ok(Value::Array(texts))
}

/// The form of a number of a certificate.
pub(crate) fn number_value(alloc: Global, number: i128) -> Result<Value, AllocError>
    ensures { IfOk result (λ v. view v ≡ number_form number) }
{
    Value::try_from_str(alloc, Buffer::new().format(number))
}

/// The word of a name, as a text.
pub(crate) fn name_text<N: Name + Drop>(name: N) -> &'static str
    requires { IsUtf8 (N.word_of name) }
    ensures { result.now ≡ N.word_of name }
{
    match std::str::from_utf8(name.word()) {
        Ok(text) => text,
        Err(_) => "",
    }
}

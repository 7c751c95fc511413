// The parameters of messages.
ghost use Rattle.std.specs.Prelude.{◌≡◌, Bool, min, Ok};
ghost use Rattle.wire.specs.Limits.{max_parameters};
ghost use Rattle.dictionary.specs.Internal.FieldAnswers.{format_is};
ghost use Rattle.meaning.specs.Inputs.{flagged, unless_flagged};
ghost use Rattle.meaning.specs.Inputs as Inputs;
ghost use Rattle.surroundings.specs.Around.{row_value};
ghost use Rattle.values.specs.Values.{Lent};
ghost use Rattle.inputs.specs.Answers.{Gives, fetched_in, by_flag, flagged_value};

use crate::stored::{kind_held, value_at};
use crate::{Fetched, Unread};
use dictionary::field::Description;
use meaning::Source;
use records::missing::Cause;
use surroundings::images::parameter_of;
use values::Value;
use wire::numbers::MessageNumber;

// A parameter of a message.
#[tactic(auto, unfolding(surroundings::specs::Around::row_value))]
pub(crate) fn plain(
    parameters: &[u32],
    count: usize,
    images: &[u8],
    message: MessageNumber,
    index: u32,
) -> Fetched
    ensures { Gives Source.Images images.now result
        (row_value parameters.now (min count max_parameters) images.now message.0 index) }
{
    let Some((x, p)) = parameter_of(parameters, count, message, index) else {
        return Err(Unread::Nothing);
    };
    value_at(x, Source::Images, images, p)
}

// Whether a value is zero, as a flag is looked at; nothing if it is no number.
fn flag_in(v: Value) -> Option<bool>
    ensures { (m : Lent) (f : Bool → Inputs.Fetched) → by_flag result f ≡ flagged (fetched_in m (Ok v)) f }
{
    match v {
        Value::Number(a) => Some(a.value == 0),
        Value::Text(_) | Value::Date(_) | Value::Missing(_, _) => None,
    }
}

// Whether what was fetched for a flag is zero.
fn flag_of(x: Fetched) -> Option<bool>
    ensures { (m : Lent) (f : Bool → Inputs.Fetched) → by_flag result f ≡ flagged (fetched_in m x) f }
{
    match x {
        Ok(v) => flag_in(v),
        Err(_) => None,
    }
}

// "parameter2 is missing if its flag isn't zero"; its value is not read then.
fn unless_set(flag: Option<bool>, x: Description, images: &[u8], p: usize) -> Fetched
    ensures { Gives Source.Images images.now result (by_flag flag (unless_flagged (format_is x) images.now p)) }
{
    match flag {
        Some(true) => value_at(x, Source::Images, images, p),
        Some(false) => Ok(Value::Missing(kind_held(x), Cause::Flag)),
        None => Err(Unread::Nothing),
    }
}

// A parameter of a message with another of it as its flag.
pub(crate) fn with_flag(
    parameters: &[u32],
    count: usize,
    images: &[u8],
    message: MessageNumber,
    index: u32,
    flag: u32,
) -> Fetched
    ensures { Gives Source.Images images.now result
        (flagged_value parameters.now (min count max_parameters) images.now message.0 index flag) }
{
    let Some((x, p)) = parameter_of(parameters, count, message, index) else {
        return Err(Unread::Nothing);
    };
    let set = flag_of(plain(parameters, count, images, message, flag));
    unless_set(set, x, images, p)
}

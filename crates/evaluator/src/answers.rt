// What a walk comes out as.
ghost use Rattle.std.specs.Prelude.{◌≡◌};
ghost use Rattle.walking.specs.Walk.{astray};
ghost use Rattle.meaning.specs.Evaluation.{refusal_of};
ghost use Rattle.meaning.specs.Evaluated.{outcome_of};
ghost use Rattle.values.specs.Values.{lent_in, tested, valued};
ghost use Rattle.evaluator.specs.AfterReading.{refused_by, settled};
ghost use Rattle.evaluator.specs.Answers.{AnswerWith, ValueSettled};

use grammar::Refusal;
use meaning::{Evaluation, Fault, ValueAnswer, ValueEvaluation};
use values::spans::span;
use values::{Lent, Stop, Tested, Value, Valued};
use wire::refused::Refused;

// Document 01's 23, 24 and 25 among the refusals.
// Kept: neither type is of this crate, so that no `From` can stand here.
pub fn refusal_of(fault: Fault) -> Refusal
    ensures { result ≡ refusal_of fault }
{
    match fault {
        Fault::MalformedText => Refusal::MalformedText,
        Fault::Overflow => Refusal::Overflow,
        Fault::ZeroDivisor => Refusal::ZeroDivisor,
    }
}

// The refusal of a walk that stopped. That over a condition of an accepted request is never stray: nothing reaches the last case.
pub fn refused_by(stop: Stop) -> Refused<Refusal>
    ensures { result ≡ refused_by stop }
{
    match stop {
        Stop::Refused(f, p) => Refused::new(refusal_of(f), p),
        Stop::Stray => Refused::new(Refusal::Unknown, 0),
    }
}

// The answer of a walk that is not astray.
pub(crate) fn answer_of(walk: Tested) -> Evaluation
    requires { tested walk ≡ astray → ⊥ }
    ensures { outcome_of result ≡ settled (tested walk) }
{
    match walk {
        Ok((t, _)) => Ok(t),
        Err(stop) => Err(refused_by(stop)),
    }
}

// A value as an answer.
fn answer_with(lent: Lent, value: Value) -> ValueAnswer
    ensures { AnswerWith (lent_in lent.entry) value result }
{
    match value {
        Value::Number(a) => ValueAnswer::Number(a),
        Value::Text(h) => {
            let t = span(lent, h);
            ValueAnswer::Text(t.source, t.start, t.end)
        }
        Value::Date(d) => ValueAnswer::Date(d.day, d.fraction),
        Value::Missing(_, w) => ValueAnswer::Missing(w),
    }
}

// The answer of a walk over a from-value, likewise.
pub(crate) fn value_answer(lent: Lent, walk: Valued) -> ValueEvaluation
    requires { valued (lent_in lent) walk ≡ astray → ⊥ }
    ensures { ValueSettled (lent_in lent.entry) walk result }
{
    match walk {
        Ok((v, _)) => Ok(answer_with(lent, v)),
        Err(stop) => Err(refused_by(stop)),
    }
}

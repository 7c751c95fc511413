// The meaning of a condition: the types that its definitions and the evaluator share.
#![tactic(auto)]

ghost use Rattle.std.specs.Prelude.{◌≡◌};
ghost use Rattle.meaning.specs.Data.{truth, fault_of};

use decimal::{ArithmeticError, Number};
use grammar::Refusal;
use records::missing::Cause;
use wire::refused::Refused;

// What a condition comes out as; missing, with the cause.
#[derive(Clone, Copy, PartialEq, Eq)]
pub enum Truth {
    True,
    False,
    Missing(Cause),
}

impl From<bool> for Truth {
    ghost from_gives = { λ b t. t ≡ truth b };

    fn from(b: bool) -> Truth {
        if b { Truth::True } else { Truth::False }
    }
}

// The kind of a value.
#[derive(Clone, Copy, PartialEq, Eq)]
pub enum Kind {
    Number,
    Text,
    Date,
}

// What a condition can be refused for while it is worked out: document 01's 23, 24 and 25.
#[derive(Clone, Copy, PartialEq, Eq)]
pub enum Fault {
    MalformedText,
    Overflow,
    ZeroDivisor,
}

impl From<ArithmeticError> for Fault {
    ghost from_gives = { λ e f. f ≡ fault_of e };

    fn from(e: ArithmeticError) -> Fault {
        match e {
            ArithmeticError::Overflow => Fault::Overflow,
            ArithmeticError::ZeroDivisor => Fault::ZeroDivisor,
        }
    }
}

// What a text stands in, of what evaluation is lent.
#[derive(Clone, Copy, PartialEq, Eq)]
pub enum Source {
    Request,
    Images,
    Records,
    Runs,
}

// What a from-value comes out as: a number; a text, by what it stands in, where it starts there and where it ends; a date's day and fraction; or
// missing, with the cause.
#[derive(Clone, Copy)]
pub enum ValueAnswer {
    Number(Number),
    Text(Source, usize, usize),
    Date(i64, u32),
    Missing(Cause),
}

// The answer of evaluation: what the condition comes out as; or the refusal and its place.
pub type Evaluation = Result<Truth, Refused<Refusal>>;

// The answer of evaluation for a from-value, likewise.
pub type ValueEvaluation = Result<ValueAnswer, Refused<Refusal>>;

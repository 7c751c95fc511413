// The reader of requests: the answer to a request beside a dictionary, and its rows in three lent tables. Other crates have `read` and
// `read_noting`, which ask for nothing; the modules are private, and their functions may ask for something of each other.
#![tactic(auto)]

mod before;
mod request;
mod rows;
mod statements;

ghost use Rattle.grammar.specs.Answered.{Answered};
ghost use Rattle.reader.specs.Lent.{Kept};
ghost use Rattle.reader.specs.Request.{AnsweredNoting, Zeros};

use before::judge;
use grammar::{Counts, Refusal};
use request::read_whole;
use rows::Rows;
use wire::limits::MAX_STATEMENTS;
use wire::refused::Refused;

// What is judged before the request's first byte, and then the request; the tables hold zeros.
#[inline(never)]
fn read_cleared(
    request: &[u8],
    dictionary: &[u8],
    parameters: &mut [u32],
    rows: &mut Rows,
) -> Result<Counts, Refused<Refusal>>
    requires { Zeros rows.old.statements.now parameters.old rows.old.contexts.now rows.old.conditions.now }
    ensures kept { Kept rows.old rows.new }
    ensures answered { AnsweredNoting request.now dictionary.now rows.old.statements.now parameters.old
        rows.old.contexts.now rows.old.conditions.now rows.new.statements.now parameters.new
        rows.new.contexts.now rows.new.conditions.now result }
{
    judge(
        request,
        dictionary,
        rows.statements.len(),
        parameters.len(),
        rows.contexts.len(),
    )?;
    match read_whole(request, dictionary, parameters, rows) {
        Ok((count, c)) => Ok(Counts {
            statements: c.statements as usize,
            parameters: count,
            contexts: c.contexts as usize,
        }),
        Err(e) => {
            parameters.fill(0);
            rows.clear();
            Err(e)
        }
    }
}

// Reads a request, fills the tables with its rows, and a fourth with the places of its conditions, which evaluation needs.
// In the frame of its caller, here and below: tables that are made there are cleared once.
// Kept, here and below: a public function, which keeps its parameters; the tables are those of C.
#[inline(always)]
pub fn read_noting(
    request: &[u8],
    dictionary: &[u8],
    statements: &mut [u32],
    parameters: &mut [u32],
    contexts: &mut [u32],
    conditions: &mut [u32],
) -> Result<Counts, Refused<Refusal>>
    ensures { AnsweredNoting request.now dictionary.now statements.old parameters.old
        contexts.old conditions.old statements.new parameters.new contexts.new
        conditions.new result }
{
    let mut rows = Rows {
        statements,
        contexts,
        conditions,
    };
    parameters.fill(0);
    rows.clear();
    read_cleared(request, dictionary, parameters, &mut rows)
}

// Reads a request, and fills the tables with its rows; a refusal leaves zeros in them.
#[inline(always)]
pub fn read(
    request: &[u8],
    dictionary: &[u8],
    statements: &mut [u32],
    parameters: &mut [u32],
    contexts: &mut [u32],
) -> Result<Counts, Refused<Refusal>>
    ensures { Answered request.now dictionary.now statements.old parameters.old
        contexts.old statements.new parameters.new contexts.new result }
{
    let mut places = [0u32; MAX_STATEMENTS];
    statements.fill(0);
    parameters.fill(0);
    contexts.fill(0);
    let mut rows = Rows {
        statements,
        contexts,
        conditions: &mut places,
    };
    read_cleared(request, dictionary, parameters, &mut rows)
}

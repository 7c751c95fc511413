// The three searches of a text.
ghost use Rattle.values.specs.Values.{lent_in};
ghost use Rattle.values.specs.Outcomes.{SearchedOf};
ghost use Rattle.values.specs.Promises.{Searched};

use crate::pairs::{Pair, paired};
use crate::{Lent, Stop, Tested, Value, Valued};
use meaning::{Kind, Truth};
use wire::codes::TextSearch;

#[tactic(auto, unfolding(meaning::specs::Data::search_of))]
fn text_search_of(m: Lent<'_>, t: TextSearch, x: Value, y: Value) -> Result<Truth, Stop>
    ensures { SearchedOf (lent_in m.entry) t x y result }
{
    match paired(x, y) {
        Pair::Texts(n, k) => Ok(Truth::from(text::search::searched(t, m.text(n), m.text(k)))),
        Pair::Lacking(Kind::Text, w) => Ok(Truth::Missing(w)),
        Pair::Lacking(Kind::Number | Kind::Date, _) => Err(Stop::Stray),
        Pair::Numbers(_, _) | Pair::Dates(_, _) | Pair::Unfit => Err(Stop::Stray),
    }
}

// Whether the first text contains, matches or starts with the second. Kept beside comparison, as is said there.
pub fn text_search(m: Lent<'_>, t: TextSearch, a: Valued, b: Valued) -> Tested
    ensures { Searched (lent_in m.entry) t a b result }
{
    let (x, _) = a?;
    let (y, end) = b?;
    let found = text_search_of(m, t, x, y)?;
    Ok((found, end))
}

// What a reader reads, beside what is in scope: a request, its dictionary, and the version and the messages around it.
ghost use Rattle.grammar.specs.Demands.{Octets};

use messages::declared::AROUND;

#[derive(Clone, Copy)]
pub struct Beside<'a> {
    pub request: &'a [u8],
    pub dictionary: &'a [u8],
    pub around: &'a [u32; AROUND],
    ghost octets: { Octets request.now },
}

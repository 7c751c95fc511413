// What is refused, and the place of it.
ghost use Rattle.std.specs.Prelude.{◌≡◌};
ghost use Rattle.wire.specs.Options.{refused_at};

#[derive(Clone, Copy)]
pub struct Refused<R> {
    pub refusal: R,
    pub place: usize,
}

impl<R> Refused<R> {
    pub fn new(refusal: R, place: usize) -> Refused<R>
        ensures { result ≡ refused_at refusal place }
    {
        Refused { refusal, place }
    }
}

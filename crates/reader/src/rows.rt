// The tables of statements, contexts and conditions, which travel together.
ghost use Rattle.std.specs.Prelude.{◌≡◌, length, replicate};
ghost use Rattle.reader.specs.Lent.{Kept};

#[derive(Drop)]
pub(crate) struct Rows<'a> {
    pub statements: &'a mut [u32],
    pub contexts: &'a mut [u32],
    pub conditions: &'a mut [u32],
}

impl Rows<'_> {
    // Zeros in all of them. Kept: the library fills one slice at a time.
    #[inline(always)]
    pub(crate) fn clear(&mut self)
        ensures kept { Kept self.old self.new }
        ensures statements { self.new.statements.now ≡ replicate (length self.old.statements.now) 0 }
        ensures contexts { self.new.contexts.now ≡ replicate (length self.old.contexts.now) 0 }
        ensures conditions { self.new.conditions.now ≡ replicate (length self.old.conditions.now) 0 }
    {
        self.statements.fill(0);
        self.contexts.fill(0);
        self.conditions.fill(0);
    }
}

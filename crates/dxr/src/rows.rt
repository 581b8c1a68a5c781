// Ranges in two rows of one length: where each starts, and the number of its hop. No one struct is for these, a lent range
// table and a table of slots: their bounds and their refusals differ, and they share no method but `len`.
ghost use Rattle.std.specs.Prelude.{◌≡◌, ◌-◌, ◌≤◌, length, take, drop};

#[derive(Clone, Copy)]
pub struct Rows<'a> {
    pub starts: &'a [u32],
    pub hops: &'a [u32],
    ghost equal: { length starts.now ≡ length hops.now },
}

impl<'a> Rows<'a> {
    pub fn len(&self) -> usize
        ensures { result ≡ length self.now.starts.now }
    {
        self.starts.len()
    }

    // The ranges from `from` up to `to`, where a struct of the two would be made for each call.
    pub(crate) fn part(&self, from: usize, to: usize) -> Rows<'a>
        requires { (from ≤ to) × (to ≤ length self.now.starts.now) }
        ensures starts { result.starts.now ≡ take (to - from) (drop from self.now.starts.now) }
        ensures hops { result.hops.now ≡ take (to - from) (drop from self.now.hops.now) }
    {
        Rows {
            starts: &self.starts[from..to],
            hops: &self.hops[from..to],
        }
    }
}

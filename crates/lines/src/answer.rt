// What a match says, with the buffers that its variables' terms are read from.
ghost use Rattle.lines.specs.Spans.{Spanned};

use refusal::{Degrees, Refusal};

#[derive(Clone, Copy)]
pub struct Answer<'a> {
    pub outcome: Result<Degrees, Refusal>,
    pub spans: &'a [u16],
    pub sets: &'a [u64],
    pub ghost spanned: { Spanned spans.now sets.now },
}

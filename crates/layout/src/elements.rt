// The layouts of elements. No rule uses them yet: every head names the draft's (docs/PORT.md, 'Unfinished work').
ghost use Rattle.std.specs.Prelude.{◌≡◌, ◌%◌};
ghost use Rattle.layout.specs.Elements.{layout_named};

use crate::row::Head;

// The layout of the draft, and the layout of the published standard.
#[derive(Clone, Copy, PartialEq, Eq)]
pub enum Layout {
    Draft,
    Standard,
}

impl Head {
    // Returns the layout that the first zero octet of the head names. It reads an octet other than 0 or 1 as 0.
    #[tactic(auto, unfolding(crate::specs::Elements::layout_named))]
    pub fn layout_named(self) -> Layout
        ensures { result ≡ layout_named (self.zero2 % 256) }
    {
        if self.zero2 % 256 == 1 {
            return Layout::Standard;
        }
        Layout::Draft
    }
}

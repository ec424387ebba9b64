// The numbers that the demo draws.
ghost use Rattle.std.specs.Prelude.{◌≡◌};
ghost use Rattle.demo_input.specs.Draws.{next_draw};

/// Numbers that follow one from the other, from a seed on.
#[derive(Clone, Copy)]
pub(crate) struct Draws {
    /// The number that was drawn last, or the seed.
    pub(crate) last: u32,
}

impl Draws {
    /// Draws the next number.
    #[tactic(auto, unfolding(crate::specs::Draws::next_draw))]
    pub(crate) fn next(&mut self) -> u32
        ensures drawn { result ≡ next_draw self.old.last }
        ensures last { self.new.last ≡ result }
    {
        self.last = (u64::from(self.last) * 48_271 % 2_147_483_647) as u32;
        self.last
    }
}

ghost use Rattle.std.specs.Prelude.{◌≡◌, ◌≤◌, ◌<◌, ℕ};
ghost use Rattle.mn_base.specs.Draws.{choice_at, state_after};

use std::marker::Model;

/// A stream of draws from a number, which contracts see as its state.
///
/// It is Knuth's linear congruential generator of 64 bits (MMIX), of which the upper 31 bits are taken. It makes orders
/// and workloads that a number stands for, and is no source of loss words.
#[derive(Drop)]
pub struct Draws {
    state: u64,
}

impl Model for Draws {
    ghost Value = { ℕ };

    ghost view = { λ d. d.state };
}

impl Draws {
    /// A stream that starts at `number`.
    pub fn new(number: u64) -> Draws
        ensures state { result ≡ number }
    {
        Draws { state: number }
    }

    /// Draws one of `choices`, from 0.
    ///
    /// A stream that starts at 0 draws 2 of 3 choices, and 15 of 16.
    pub fn draw(&mut self, choices: u32) -> u32
        requires choices { 1 ≤ choices }
        ensures value { result ≡ choice_at self.new choices }
        ensures below { result < choices }
        ensures state { self.new ≡ state_after self.old }
    {
        self.state = self
            .state
            .wrapping_mul(6_364_136_223_846_793_005)
            .wrapping_add(1_442_695_040_888_963_407);
        ((self.state >> 33) % u64::from(choices)) as u32
    }
}

//! Numbers that are drawn one after the other.
ghost use Rattle.std.specs.Prelude.{◌≡◌, ◌<◌};
ghost use Rattle.made_line.specs.Base as draws;

// A source of numbers that look like chance and are the same for the same first number.
#[derive(Drop)]
pub(crate) struct Draws {
    x: u32,
}

impl Draws {
    // The draws that go on from a number.
    pub(crate) fn from(n: u32) -> Draws
        ensures { result.x ≡ n }
    {
        Draws { x: n }
    }

    // The next draw below a limit.
    pub(crate) fn draw(&mut self, below: u32) -> u32
        requires { 0 < below }
        ensures drawn { result ≡ draws.draw self.old.x below }
        ensures below { result < below }
        ensures next { self.new.x ≡ draws.next_number self.old.x }
    {
        let next = (u64::from(self.x) * 1_103_515_245 + 12_345) % 2_147_483_648;
        self.x = next as u32;
        self.x / 65_536 % below
    }

    // Lets draws pass.
    pub(crate) fn skip(&mut self, count: u32)
        ensures { self.new.x ≡ draws.after_draws self.old.x count }
    {
        for _ in 0..count {
            self.draw(1);
        }
    }
}

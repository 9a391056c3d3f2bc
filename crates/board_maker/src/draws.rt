//! The numbers that a script is made from, drawn one after another.
ghost use Rattle.std.specs.Prelude.{◌≡◌, ◌<◌, ◌^◌};
ghost use Rattle.std.specs.Fn.{iterate};
ghost use Rattle.board_maker.specs.Draws.{next_state, drawn};
ghost use Rattle.board_maker.specs.Picks.{picked_behind};

// What the draws go on from.
#[derive(Drop)]
pub(crate) struct Draws {
    pub state: u32,
}

// What a line of the script is drawn from: a place in nm, what is asked for, and a layer.
#[derive(Clone, Copy)]
pub(crate) struct Pick {
    pub x: u32,
    pub y: u32,
    pub kind: u32,
    pub layer: u32,
}

impl Draws {
    // A number below `count`.
    fn draw(&mut self, count: u32) -> u32
        requires { 0 < count }
        ensures state { self.new.state ≡ next_state self.old.state }
        ensures drawn { result ≡ drawn count self.new.state }
    {
        self.state = self
            .state
            .wrapping_mul(1_664_525)
            .wrapping_add(1_013_904_223);
        (self.state >> 16) % count
    }

    // What the next line is drawn from.
    pub(crate) fn pick(&mut self) -> Pick
        ensures state { self.new.state ≡ iterate next_state 4 self.old.state }
        ensures picked { result ≡ picked_behind self.old.state }
        ensures place { result.x < 50000000 }
    {
        let x = 1_000_000 * self.draw(50);
        let y = 100_000 * self.draw(500);
        let kind = self.draw(8);
        let layer = self.draw(2);
        Pick { x, y, kind, layer }
    }
}

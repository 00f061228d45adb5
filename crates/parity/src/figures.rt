ghost use Rattle.std.specs.Prelude.{◌≡◌, length};
ghost use Rattle.parity.specs.Figures.{figures, FiguresHold};

/// How many worked figures the specification has. All of them hold, by the sums of the signs and by the closed rules.
pub fn worked_figures() -> usize
    ensures count { result ≡ length figures }
    ensures hold { FiguresHold }
{
    12
}

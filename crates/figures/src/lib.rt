//! Worked figures: tables of questions with their answers, which the definitions are proved to yield.

#![tactic(auto)]

ghost use Rattle.std.specs.Prelude.{◌≡◌, ◌+◌, length};
ghost use Rattle.parity.specs.Figures as families;
ghost use Rattle.figures.specs.Figures.{figures, FiguresHold, SampleHolds};

/// How many worked figures the specification has, those of the families counted. All of them hold, by the definitions and by the closed rules; and the five calls that the
/// program `sketch_sample` makes leave what it prints.
pub fn worked_figures() -> usize
    ensures count { result ≡ length families.figures + length figures }
    ensures hold { FiguresHold }
    ensures sample { SampleHolds }
{
    parity::worked_figures() + 5
}

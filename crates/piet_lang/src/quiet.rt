// Steps that take nothing, write nothing and need no memory, one after the other.
ghost use Rattle.std.specs.Prelude.{◌≡◌, ◌≤◌, true, false};
ghost use Rattle.mach_core.specs.Silent.{StepsSilently};
ghost use Rattle.piet_lang.specs.Quiet.{IsQuietStep};
ghost use Rattle.piet_lang.specs.Rule.{rule_of};

use crate::chart::Chart;
use crate::state::PietState;
use mach_core::Status;

// Makes a step from one colour onto another, if it takes nothing, writes nothing and needs no memory.
#[inline(always)]
fn step_quietly(chart: &Chart, state: &mut PietState) -> bool
    ensures done { result ≡ true → IsQuietStep (rule_of chart.now) state.old state.new }
    ensures not { result ≡ false → state.new ≡ state.old }
{
    if state.status() != Status::Going || state.reading().is_some() {
        return false;
    }
    let at = state.at();
    let Some((act, to)) = chart.passage(at) else {
        return false;
    };
    let size = chart.size(at.place);
    state.perform_quietly(act, to, size)
}

/// Makes at most so many steps, and says how many. It stops before a slide, and before a step that takes, writes, or may
/// need memory.
pub(crate) fn run_quietly(chart: &Chart, state: &mut PietState, most: u64) -> u64
    ensures few { result ≤ most }
    ensures silent { StepsSilently (rule_of chart.now) state.old result state.new }
{
    let mut made = 0;
    while made < most && step_quietly(chart, state) {
        made += 1;
    }
    made
}

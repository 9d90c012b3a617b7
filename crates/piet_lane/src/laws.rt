// What holds of the definitions.
ghost use Rattle.std.specs.Prelude.{ℕ, ◌<◌, ◌≤◌, List, length};
ghost use Rattle.piet_image.specs.Block.{Atlas};
ghost use Rattle.piet_lane.specs.Board.{board, lane_at};
ghost use Rattle.piet_lane.specs.Lanes.{lanes_of};
ghost use Rattle.piet_lane.specs.Runs.{RunsLanes, AtEnd};
ghost use Rattle.piet_lane.specs.declared.command.Command.{Command};

/// A board runs its lanes: the one at which it starts, and after each the one whose number it leaves on top.
pub fn boards_run_their_lanes()
    ensures { (lanes : List (List Command)) (reach start : ℕ) → start < length (lanes_of lanes) → ((i : ℕ) → length (lane_at (lanes_of lanes) i) ≤ reach)
        → (atlas : Atlas (board (lanes_of lanes) reach start)) → RunsLanes (board (lanes_of lanes) reach start) atlas (lanes_of lanes) start (AtEnd (lanes_of lanes) reach) }
{}

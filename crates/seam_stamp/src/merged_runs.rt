// SPDX-License-Identifier: MIT

// The law of stamped logs: the logs of all nodes of a net, merged by stamp, are a run of the net.
//
// Each node did its steps one after the other, with stamps that rise strictly and are above that of the letter that was received (Lamport,
// "Time, Clocks, and the Ordering of Events in a Distributed System", 1978). On each link the letters were received in the order in which
// they were sent. Then no event of the merge comes before one that it depends on.
//
// Each law is a clause of a function that does nothing.

ghost use Rattle.std.specs.Prelude.{ℕ, List, map};
ghost use Rattle.seam_machine.specs.Views.{NetView};
ghost use Rattle.seam_machine.specs.Nets.{LeadsTo};
ghost use Rattle.seam_machine.specs.declared.machines.Event.{Event};
ghost use Rattle.seam_stamp.specs.Logs.{IsMerge};
ghost use Rattle.seam_stamp.specs.declared.Letter.{Letter};
ghost use Rattle.seam_stamp.specs.declared.Stamped.{Stamped};
ghost use Rattle.seam_stamp.specs.Moves.{Move, Fits, Rises, IsRun};
ghost use Rattle.seam_stamp.specs.Joined.{Joined, IsRebuilt, left_of};

use seam_machine::Machine;

/// Moves of the nodes whose stamps never fall are a run of the net.
pub fn moves_are_run<M: Machine>()
    ensures { (n : ℕ) (w : NetView M M.Msg) (start : ℕ → M) (last : ℕ → ℕ) (first rest : ℕ → ℕ →
        List (Letter M.Msg)) (moves : List (Move M.Msg)) →
        Fits M.has_work M.steps n w start last first rest moves → Rises n 0 moves →
        IsRun M.has_work M.steps n w start rest moves }
{}

/// The logs of all nodes, merged, are a run from the net at their start to the net of the nodes and of what was left of the links.
pub fn logs_are_run<M: Machine>()
    ensures { (n : ℕ) (w v : NetView M M.Msg) (start now : ℕ →
        M) (logs : List (List (Stamped Event))) (hand : ℕ → List (ℕ × Letter M.Msg))
        (first taken put met : ℕ → ℕ → List (Letter M.Msg)) (merged : List (Stamped Event)) →
        Joined M.has_work M.steps n w start now logs hand first taken put met →
        IsMerge logs merged → IsRebuilt n now (left_of hand met) v →
        LeadsTo M.has_work M.steps w (map (λ e. e.item) merged) v }
{}

// What holds of the whole run beyond what a call of it promises, as the contract of a function that has nothing
// to do.
ghost use Rattle.solve.specs.Laws.{NoSteps, OneChannel, NoHolds};

/// Without steps a run leaves its start, with one channel both modes leave the same, and a sheet that holds no
/// channel is solved as one that says so.
// Rules out: the start projected where there are no steps; separate mode by another weight where there is one
// channel; a channel held because no line says otherwise.
pub fn whole_run_law()
    ensures no_steps { NoSteps }
    ensures one_channel { OneChannel }
    ensures no_holds { NoHolds }
{}

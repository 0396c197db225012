// How likely each node is to reach the target, as a backward solve from it lets expect, of a list of links.
ghost use Rattle.std.specs.Prelude.{◌≡◌};
ghost use Rattle.refusals.specs.Answered.{number_in};
ghost use Rattle.refusals.specs.Calls.{outcome_of};
ghost use Rattle.calls.specs.Slices.{rows_lent_in, given_links_in, SameRowBuffers, SameVectors, SameWorkspace};
ghost use Rattle.backward_push.specs.Lent.{reach_lent, reaching};
ghost use Rattle.backward_push.specs.Slices.{back_lent_in, SameReverseBuffers};
ghost use Rattle.backward_push.specs.Outcomes.{reachability_probabilities};

use backward_push::reversed::ReverseBuffers;
use calls::lent;
use calls::lent::{Links, RowBuffers, Vectors, Workspace};
use refusals::Settings;
use refusals::refusal::Refusal;

pub fn reachability_probabilities_links(
    links: Links<'_>,
    target: u32,
    settings: Settings,
    vectors: &mut Vectors<'_>,
    solution: &mut [f64],
    made: &mut RowBuffers<'_>,
    reverse: &mut ReverseBuffers<'_>,
    workspace: &mut Workspace<'_>,
) -> Result<(), Refusal>
    ensures same_vectors { SameVectors vectors.old vectors.new }
    ensures same_rows { SameRowBuffers made.old made.new }
    ensures same_reverse { SameReverseBuffers reverse.old reverse.new }
    ensures same_workspace { SameWorkspace workspace.old workspace.new }
    ensures outcome { outcome_of (number_in result) (rows_lent_in made.new (reach_lent solution.new (back_lent_in reverse.new vectors.new workspace.new)))
        ≡ reachability_probabilities (given_links_in reaching links.entry (rows_lent_in made.old (reach_lent solution.old (back_lent_in reverse.old vectors.old workspace.old))))
        target settings }
{
    let one = [target];
    checked_backward_links::checked_links(
        links,
        &one,
        solution.len() != links.nodes as usize,
        0,
        None,
        settings,
        Ok(()),
        vectors,
        made,
        reverse,
        workspace,
    )?;
    calls::extrapolate(lent::read(vectors), settings.alpha, solution);
    Ok(())
}

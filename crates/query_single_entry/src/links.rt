// The score of the target in a forward solve from one source, of a list of links.
ghost use Rattle.std.specs.Prelude.{◌≡◌};
ghost use Rattle.refusals.specs.Calls.{outcome_of};
ghost use Rattle.calls.specs.Lent.{solving, scored_for};
ghost use Rattle.calls.specs.Slices.{lent_in, rows_lent_in, given_links_in, SameRowBuffers, SameVectors, SameWorkspace};
ghost use Rattle.forward_push.specs.Outcomes.{query_single_entry};

use calls::lent::{Links, RowBuffers, Vectors, Workspace};
use refusals::Settings;
use refusals::refusal::Refusal;

pub fn query_single_entry_links(
    links: Links<'_>,
    source: u32,
    target: u32,
    settings: Settings,
    vectors: &mut Vectors<'_>,
    made: &mut RowBuffers<'_>,
    degrees: &mut [f64],
    workspace: &mut Workspace<'_>,
) -> Result<f64, Refusal>
    ensures same_vectors { SameVectors vectors.old vectors.new }
    ensures same_rows { SameRowBuffers made.old made.new }
    ensures same_workspace { SameWorkspace workspace.old workspace.new }
    ensures outcome { outcome_of (scored_for result) (rows_lent_in made.new (lent_in vectors.new degrees.new workspace.new))
        ≡ query_single_entry (given_links_in solving links.entry (rows_lent_in made.old (lent_in vectors.old degrees.old workspace.old)))
        source target settings }
{
    let one = [source];
    let counts = checked_forward_links::checked_links(
        links,
        &one,
        0,
        None,
        settings,
        Ok(()),
        vectors,
        made,
        degrees,
        workspace,
    );
    calls::answered(counts, vectors, target)
}

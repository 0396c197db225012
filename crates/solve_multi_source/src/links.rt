// A forward solve from many sources, of a list of links.
ghost use Rattle.refusals.specs.Calls.{outcome_of};
ghost use Rattle.calls.specs.Lent.{solving, solved_for};
ghost use Rattle.calls.specs.Slices.{lent_in, rows_lent_in, given_links_in, SameRowBuffers, SameVectors, SameWorkspace};
ghost use Rattle.forward_push.specs.Outcomes.{solve_multi_source};

use calls::Summary;
use calls::lent::{Links, RowBuffers, Vectors, Workspace};
use refusals::Settings;
use refusals::refusal::Refusal;

pub fn solve_multi_source_links(
    links: Links<'_>,
    sources: &[u32],
    settings: Settings,
    vectors: &mut Vectors<'_>,
    made: &mut RowBuffers<'_>,
    degrees: &mut [f64],
    workspace: &mut Workspace<'_>,
) -> Result<Summary, Refusal>
    ensures same_vectors { SameVectors vectors.old vectors.new }
    ensures same_rows { SameRowBuffers made.old made.new }
    ensures same_workspace { SameWorkspace workspace.old workspace.new }
    ensures outcome { solve_multi_source (given_links_in solving links.entry (rows_lent_in made.old (lent_in vectors.old degrees.old workspace.old)))
        sources.now settings (outcome_of (solved_for result) (rows_lent_in made.new (lent_in vectors.new degrees.new workspace.new))) }
{
    let counts = checked_forward_links::checked_links(
        links,
        sources,
        sources.len(),
        None,
        settings,
        Ok(()),
        vectors,
        made,
        degrees,
        workspace,
    );
    calls::measured(counts, vectors)
}

// A backward solve from one target that stops early, where the estimate of the source is precise enough, of a list of links.
ghost use Rattle.refusals.specs.Calls.{outcome_of};
ghost use Rattle.calls.specs.Lent.{solved_for};
ghost use Rattle.calls.specs.Slices.{rows_lent_in, given_links_in, SameRowBuffers, SameVectors, SameWorkspace};
ghost use Rattle.backward_push.specs.Lent.{reversing};
ghost use Rattle.backward_push.specs.Slices.{back_lent_in, SameReverseBuffers};
ghost use Rattle.backward_push.specs.Outcomes.{solve_with_source};

use backward_push::reversed::ReverseBuffers;
use calls::Summary;
use calls::lent::{Links, RowBuffers, Vectors, Workspace};
use refusals::Settings;
use refusals::refusal::Refusal;
use watching::Watched;

pub fn solve_with_source_links(
    links: Links<'_>,
    source: u32,
    target: u32,
    source_precision: f64,
    settings: Settings,
    vectors: &mut Vectors<'_>,
    made: &mut RowBuffers<'_>,
    reverse: &mut ReverseBuffers<'_>,
    workspace: &mut Workspace<'_>,
) -> Result<Summary, Refusal>
    ensures same_vectors { SameVectors vectors.old vectors.new }
    ensures same_rows { SameRowBuffers made.old made.new }
    ensures same_reverse { SameReverseBuffers reverse.old reverse.new }
    ensures same_workspace { SameWorkspace workspace.old workspace.new }
    ensures outcome { solve_with_source (given_links_in reversing links.entry (rows_lent_in made.old (back_lent_in reverse.old vectors.old workspace.old)))
        source target source_precision settings (outcome_of (solved_for result) (rows_lent_in made.new (back_lent_in reverse.new vectors.new workspace.new))) }
{
    let one = [target];
    let further = refusals::check_precision(source_precision);
    let counts = checked_backward_links::checked_links(
        links,
        &one,
        false,
        0,
        Some(Watched {
            node: source,
            precision: source_precision,
        }),
        settings,
        further,
        vectors,
        made,
        reverse,
        workspace,
    );
    calls::measured(counts, vectors)
}

// A job, from its bytes to the text that it prints. The buffers of its solve are lent in layers.
#![tactic(auto)]

ghost use Rattle.std.specs.Prelude.{true, ◌≡◌, ◌≤◌, length};
ghost use Rattle.calls.specs.Lent.{solved_for};
ghost use Rattle.calls.specs.Slices.{lent_in};
ghost use Rattle.io.specs.Counts.{IsPrefixLen};
ghost use Rattle.job_fields.specs.Shape.{links_in, sources_in, shaped};
ghost use Rattle.job_text.specs.Growth.{GrownBy};
ghost use Rattle.job_answer.specs.Printed.{settings_in, job_in, prints, Writes};
ghost use Rattle.job_answer.specs.Promises.{Roomy, ListsLong, RowsLong, SolveLong, job_with, answer_text, WritesIn};

use calls::Summary;
use calls::lent::{Links, RowBuffers, Vectors, Workspace};
use job_text::Text;
use refusals::Settings;
use refusals::refusal::Refusal;

// Room for the text of any job: 64 bytes for the first line, and for that of each of 256 nodes.
pub const ROOM: usize = 16_448;

// The settings in a job's bytes.
fn settings_in(bytes: &[u8]) -> Settings
    requires { 56 ≤ length bytes.now }
    ensures { result ≡ settings_in bytes.now }
{
    refusals::usual(
        job_fields::float(bytes, 24),
        job_fields::float(bytes, 32),
        job_fields::float(bytes, 40),
        job_fields::word(bytes, 48) as u64,
        job_fields::word(bytes, 52) == 1,
    )
}

// Writes what a solve answered and left in its two vectors.
fn tell(answer: Result<Summary, Refusal>, vectors: &Vectors<'_>, text: &mut Text<'_>)
    requires { (length vectors.now.estimate.now ≤ 256) × (length vectors.now.residual.now ≡ length vectors.now.estimate.now) × Roomy text.old }
    ensures { GrownBy (answer_text (solved_for answer) vectors.now.estimate.now vectors.now.residual.now) text.old text.new }
{
    match answer {
        Ok(solve) => {
            text.append_done(solve.push_count, solve.nodes_visited, solve.residual_norm);
            text.append_nodes(vectors.estimate, vectors.residual);
        }
        Err(refusal) => text.append_refused(refusal.into()),
    }
}

// Solves, and writes the text.
fn solve_and_tell(
    links: Links<'_>,
    sources: &[u32],
    settings: Settings,
    vectors: &mut Vectors<'_>,
    made: &mut RowBuffers<'_>,
    degrees: &mut [f64],
    workspace: &mut Workspace<'_>,
    text: &mut Text<'_>,
)
    requires n_bound { (links.nodes ≤ 256) × ListsLong (length links.from.now) links.to.now links.weight.now × Roomy text.old }
    requires rows_long { RowsLong links.nodes (length links.from.now) made.old.starts.now made.old.columns.now made.old.weights.now }
    requires solve_long { SolveLong links.nodes (lent_in vectors.old degrees.old workspace.old) }
    ensures { WritesIn (job_with links.entry sources.now settings) text.old text.new }
{
    let answer = solve_multi_source::links::solve_multi_source_links(
        links, sources, settings, vectors, made, degrees, workspace,
    );
    tell(answer, vectors, text);
}

// Lends the vectors, the degrees, the queue and the marks.
fn solve_lists(
    links: Links<'_>,
    sources: &[u32],
    settings: Settings,
    made: &mut RowBuffers<'_>,
    text: &mut Text<'_>,
)
    requires n_bound { (links.nodes ≤ 256) × ListsLong (length links.from.now) links.to.now links.weight.now × Roomy text.old }
    requires rows_long { RowsLong links.nodes (length links.from.now) made.old.starts.now made.old.columns.now made.old.weights.now }
    ensures { WritesIn (job_with links.entry sources.now settings) text.old text.new }
{
    let k = links.nodes as usize;
    let w = (k + 63) / 64;
    let mut estimate = [0.0f64; 256];
    let mut residual = [0.0f64; 256];
    let mut degrees = [0.0f64; 256];
    let mut priorities = [0.0f64; 256];
    let mut nodes = [0u32; 256];
    let mut queued = [0u64; 4];
    let mut visited = [0u64; 4];
    let mut vectors = Vectors {
        estimate: &mut estimate[..k],
        residual: &mut residual[..k],
    };
    let mut workspace = Workspace {
        priorities: &mut priorities[..k],
        nodes: &mut nodes[..k],
        queued: &mut queued[..w],
        visited: &mut visited[..w],
    };
    solve_and_tell(
        links,
        sources,
        settings,
        &mut vectors,
        made,
        &mut degrees[..k],
        &mut workspace,
        text,
    );
}

// Lends the buffers for rows.
fn solve_links(links: Links<'_>, sources: &[u32], settings: Settings, text: &mut Text<'_>)
    requires n_bound { (links.nodes ≤ 256) × ListsLong (length links.from.now) links.to.now links.weight.now × Roomy text.old }
    requires from_len_bound { length links.from.now ≤ 1024 }
    ensures { WritesIn (job_with links.entry sources.now settings) text.old text.new }
{
    let k = links.nodes as usize;
    let m = links.from.len();
    let mut starts = [0u32; 257];
    let mut columns = [0u32; 1024];
    let mut weights = [0.0f64; 1024];
    let mut made = RowBuffers {
        starts: &mut starts[..k + 1],
        columns: &mut columns[..m],
        weights: &mut weights[..m],
    };
    solve_lists(links, sources, settings, &mut made, text);
}

// Reads the lists, and solves.
fn read_and_solve(
    bytes: &[u8],
    from: &mut [u32],
    to: &mut [u32],
    weight: &mut [f64],
    sources: &mut [u32],
    text: &mut Text<'_>,
)
    requires bytes_value { (shaped bytes.now ≡ true) × ListsLong (length from.old) to.old weight.old × Roomy text.old }
    requires from_len { (length from.old ≡ links_in bytes.now) × (length sources.old ≡ sources_in bytes.now) }
    ensures { WritesIn (job_in bytes.now) text.old text.new }
{
    job_fields::read_fields(bytes, 56, 16, from);
    job_fields::read_fields(bytes, 60, 16, to);
    job_fields::read_fields(bytes, 64, 16, weight);
    job_fields::read_fields(bytes, 56 + 16 * from.len(), 4, sources);
    let links = Links {
        nodes: job_fields::word(bytes, 0),
        from,
        to,
        weight,
    };
    solve_links(links, sources, settings_in(bytes), text);
}

// Lends the lists of a job that has its shape.
fn run_shaped(bytes: &[u8], text: &mut Text<'_>)
    requires { (shaped bytes.now ≡ true) × Roomy text.old }
    ensures { WritesIn (job_in bytes.now) text.old text.new }
{
    let links = job_fields::word(bytes, 4) as usize;
    let count = job_fields::word(bytes, 8) as usize;
    let mut from = [0u32; 1024];
    let mut to = [0u32; 1024];
    let mut weight = [0.0f64; 1024];
    let mut sources = [0u32; 16];
    read_and_solve(
        bytes,
        &mut from[..links],
        &mut to[..links],
        &mut weight[..links],
        &mut sources[..count],
        text,
    );
}

// Writes the text of a job, and answers its length.
pub fn run(bytes: &[u8], text: &mut [u8; ROOM]) -> usize
    ensures writes { Writes (prints bytes.now) text.old result text.new }
    ensures prefix_len { IsPrefixLen result text.new }
{
    let mut told = Text {
        bytes: text,
        end: 0,
    };
    if !job_fields::is_shaped(bytes) {
        told.append_refused(Refusal::UnsoundJob.into());
        return told.end;
    }
    run_shaped(bytes, &mut told);
    told.end
}

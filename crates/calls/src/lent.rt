// What the calls of the solvers are given and lent, in structs of slices that always travel together. The degrees of a
// forward solve are lent beside them, since its graph reads them while the vectors and the workspace are written.
ghost use Rattle.std.specs.Prelude.{◌≡◌};

// A list of links among so many nodes.
#[derive(Clone, Copy)]
pub struct Links<'a> {
    pub nodes: u32,
    pub from: &'a [u32],
    pub to: &'a [u32],
    pub weight: &'a [f64],
}

// The compressed rows of so many nodes.
#[derive(Clone, Copy)]
pub struct Rows<'a> {
    pub nodes: u32,
    pub starts: &'a [u32],
    pub columns: &'a [u32],
    pub weights: &'a [f64],
}

// Lent for the rows of a list of links, and left zero.
#[derive(Drop)]
pub struct RowBuffers<'a> {
    pub starts: &'a mut [u32],
    pub columns: &'a mut [u32],
    pub weights: &'a mut [f64],
}

// The two vectors that a solve answers.
#[derive(Drop)]
pub struct Vectors<'a> {
    pub estimate: &'a mut [f64],
    pub residual: &'a mut [f64],
}

// The same, to read.
#[derive(Clone, Copy)]
pub struct SharedVectors<'a> {
    pub estimate: &'a [f64],
    pub residual: &'a [f64],
}

// Lent for the queue and the marks, and left zero.
#[derive(Drop)]
pub struct Workspace<'a> {
    pub priorities: &'a mut [f64],
    pub nodes: &'a mut [u32],
    pub queued: &'a mut [u64],
    pub visited: &'a mut [u64],
}

// Lends the two vectors to be read.
pub fn read<'a>(vectors: &'a Vectors<'_>) -> SharedVectors<'a>
    ensures { (result.estimate.now ≡ vectors.now.estimate.now) × (result.residual.now ≡ vectors.now.residual.now) }
{
    SharedVectors {
        estimate: vectors.estimate,
        residual: vectors.residual,
    }
}
